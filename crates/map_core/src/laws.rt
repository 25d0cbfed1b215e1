//! Laws of the plain map.
ghost use Rattle.map_core.specs.Laws.{AskedAtHome, DependsOnName, NamesRise, PartsTogether, TellsOfChange};

/// The reply of an operation on one name, and what that name holds then, follow from what it held; all
/// other names keep theirs.
pub fn depends_on_name()
    ensures { DependsOnName }
{}

/// A reply reports a change if and only if the map changed.
pub fn tells_of_change()
    ensures { TellsOfChange }
{}

/// The parts of a map, by the homes of the names, are together the map.
pub fn parts_together()
    ensures { PartsTogether }
{}

/// An operation on one name is answered by the part of its home, which it changes as it changes the map;
/// the other parts stay.
pub fn asked_at_home()
    ensures { AskedAtHome }
{}

/// The names in the reply to a fetch-all rise strictly, in byte order.
pub fn names_rise()
    ensures { NamesRise }
{}
