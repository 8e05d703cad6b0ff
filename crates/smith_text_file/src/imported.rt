use smith_types::{EntityType, Imports};

/// The number of imports of each kind, which is the index of the first defined entity of the kind.
#[derive(Clone, Copy)]
pub(crate) struct Imported {
    pub(crate) globals: usize,
    pub(crate) tables: usize,
    pub(crate) memories: usize,
    pub(crate) tags: usize,
    pub(crate) funcs: usize,
}

impl Imported {
    /// Counts the imports of `groups`.
    pub(crate) fn of(groups: &[Imports]) -> Imported {
        let mut counts = Imported {
            globals: 0,
            tables: 0,
            memories: 0,
            tags: 0,
            funcs: 0,
        };
        for group in groups {
            counts.add_group(group);
        }
        counts
    }

    // Counts the imports of `group`.
    fn add_group(&mut self, group: &Imports) {
        match group {
            Imports::Single(import) => self.add(&import.entity_type, 1),
            Imports::Compact1 { items, .. } => {
                for item in items {
                    self.add(&item.entity_type, 1);
                }
            }
            Imports::Compact2 {
                entity_type,
                names,
                ..
            } => self.add(entity_type, names.len()),
        }
    }

    // Counts `count` imports of the type `entity`.
    fn add(&mut self, entity: &EntityType, count: usize) {
        let counted = match entity {
            EntityType::Global(_) => &mut self.globals,
            EntityType::Table(_) => &mut self.tables,
            EntityType::Memory(_) => &mut self.memories,
            EntityType::Tag(_) => &mut self.tags,
            EntityType::Func(_) => &mut self.funcs,
        };
        *counted = counted.saturating_add(count);
    }
}
