//! A law of writers that set their domains in turn.
ghost use Rattle.race_demo.specs.Moment.{AreFirstFew};

/// At any moment the first few domains of a writer have a number, and the others have the number before it.
pub fn first_few_are_ahead()
    ensures { AreFirstFew }
{}
