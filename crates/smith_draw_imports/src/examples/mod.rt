//! Example values of the kinds of groups.

mod import_groups;
