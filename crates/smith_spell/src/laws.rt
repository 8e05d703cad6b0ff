ghost use Rattle.smith_spell.specs.ReadLaws.{GroupsAreRead};

/// States that from each piece of bytes that spells the groups of a member of the family, these
/// groups are drawn.
pub fn groups_are_read()
    ensures { GroupsAreRead }
{}
