//! What follows from the definitions.
ghost use Rattle.std.specs.Prelude.{◌≡◌, Result, Some, true};
ghost use Rattle.map_core.specs.declared.op.Op.{Op};
ghost use Rattle.map_core.specs.declared.reply.Reply.{Reply};
ghost use Rattle.map_core.specs.declared.reply.AskError.{AskError};
ghost use Rattle.map_core.specs.PlainMap.{PlainMap, ask};
ghost use Rattle.map_core.specs.Op.{is_read};
ghost use Rattle.workers.specs.ReadOnly.{ReadAnswer};

use map_core::Ask;

/// What is asked of a map that may only be read leaves the map that is shown as it was, whatever is asked and answered.
pub fn readers_change_nothing<A: Ask>()
    ensures plain { (m : PlainMap) (op : Op) → is_read op ≡ true → (ask m op).map ≡ m }
    ensures shown { (old new : A) (op : Op) (answer : Result Reply AskError) (m : PlainMap) → A.shows old ≡ Some m
        → ReadAnswer A.answers old op answer new → A.shows new ≡ Some m }
{}
