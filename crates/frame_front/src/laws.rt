//! What follows from the definitions.
ghost use Rattle.std.specs.Prelude.{◌≡◌, ◌↔◌, ℕ, ◌≤◌, Result, List, [], ◌∷◌, ◌++◌, ◌<◌, map, slice_index, not, Ok, Err, Some, Bool, true};
ghost use Rattle.map_core.specs.Ask.{ContentsAnswer};
ghost use Rattle.map_core.specs.PlainMap.{PlainMap, bundles, ask};
ghost use Rattle.wire.specs.Frame.{HasFrames, IsUnfinished, stream_of};
ghost use Rattle.std.specs.FinMap as finite;
ghost use Rattle.map_core.specs.declared.reply.Reply.TheVariants.{Stored};
ghost use Rattle.wire.specs.declared.version.Version.TheVariants.{One, Two};
ghost use Rattle.frame_front.specs.declared.terms.Terms.{Terms};
ghost use Rattle.frame_front.specs.Terms.{begun, for_all, is_change};
ghost use Rattle.map_core.specs.declared.op.Op.{Op};
ghost use Rattle.map_core.specs.Op.{is_read};
ghost use Rattle.wire.specs.Judge.{request_of};
ghost use Rattle.wire.specs.declared.judge.Judged.TheVariants.{Ask as AskFor};
ghost use Rattle.wire.specs.declared.version.Version.{Version};
ghost use Rattle.map_core.specs.declared.reply.Reply.{Reply};
ghost use Rattle.map_core.specs.declared.reply.AskError.{AskError};
ghost use Rattle.wire.specs.Laws.{IsAnswer, HaveLines};
ghost use Rattle.std.specs.List.{concat};
ghost use Rattle.wire.specs.Answers.{reply_frames, version_frame, memory_frame, is_error_reply};
ghost use Rattle.frame_front.specs.PlainSession.{TellsError, answers_to, state_after};
ghost use Rattle.frame_front.specs.Dump.{Domains, IsDump, IsBadDump, AreValid, requests_for, map_of, dump_of};
ghost use Rattle.frame_front.specs.Session.{Answers, EndsAt, Session};
ghost use Rattle.wire.specs.declared.error.FrontError.{FrontError};
ghost use Rattle.frame_front.specs.Live.{LiveView, live_start, room_of, waiting};
ghost use Rattle.frame_front.specs.LiveCalls.{LiveCall, LivePlainTable, LiveTable, DoesAll, fed, sent, frames_of};

use map_core::Ask;

/// A reply that tells an error says that nothing changed: the map shown and the terms are as they were.
pub fn errors_change_nothing<A: Ask>()
    ensures { (terms next : Terms) (old new : A) (payload text : List ℕ) (m : PlainMap) → A.shows old ≡ Some m
        → Answers A.answers (terms, old) payload text (next, new) → is_error_reply text ≡ true → (A.shows new ≡ Some m) × (next ≡ terms) }
{}

/// Over one map the only reply that tells an error is the one that says that memory ran out.
pub fn one_map_tells_only_out_of_memory()
    ensures { (text : List ℕ) → TellsError ContentsAnswer text → text ≡ memory_frame }
{}

/// What is not a dump is wrong at exactly one place.
pub fn bad_dumps_have_one_place()
    ensures { (dump : List ℕ) (place other : ℕ) → IsBadDump dump place → IsBadDump dump other → place ≡ other }
{}

/// What a dump holds is valid. From the empty map, and in version 1, the requests that it becomes are
/// answered by the version and then one reply for each domain, which is stored. The map after it is that of the dump.
pub fn migrated_dumps_are_stored()
    ensures { (dump : List ℕ) (items : Domains) → IsDump dump items → AreValid items
        × HasFrames (stream_of (requests_for items) []) (requests_for items) []
        × (answers_to (for_all One, finite.empty) (requests_for items) ≡ version_frame Two ∷ map (λ item. reply_frames Stored) items)
        × (state_after (for_all One, finite.empty) (requests_for items) ≡ (for_all Two, map_of items))
        × (bundles (map_of items) ≡ items) }
{}

/// Two maps of valid bundles have equal dumps if and only if they have the same bundles under the same names.
/// So a dump, or a hash of it that has no collisions, tells what a federation publishes.
pub fn equal_dumps_are_of_equal_bundles()
    ensures { (m n : PlainMap) → AreValid (bundles m) → AreValid (bundles n) → (dump_of m ≡ dump_of n) ↔ (bundles m ≡ bundles n) }
{}

/// A session without ends carries the table of `serve`, however its input was cut into pieces and however often it was
/// answered and written: what was sent and what waits are the texts of the first frames fed, one for each. Once all is sent, it
/// is a session of what was fed and what was sent, with the end that the bytes kept tell. Over a map that shows a plain
/// map the texts are the plain map's answers, if none of them tells an error. This holds of one that may only read, too: there
/// each change is answered that the gate is shut.
pub fn live_sessions_are_sessions<A: Ask>()
    ensures table { (reads_only : Bool) (calls : List LiveCall) (start : A) (now : LiveView × A) → DoesAll A.answers calls (live_start reads_only, start) now
        → LiveTable A.answers reads_only (fed calls) (sent calls) (frames_of calls) start now }
    ensures whole { (reads_only : Bool) (calls : List LiveCall) (start : A) (now : LiveView × A) (result : Result ℕ FrontError)
        → DoesAll A.answers calls (live_start reads_only, start) now → waiting now.0 ≡ [] → EndsAt result (frames_of calls) now.0.kept
        → Session A.answers result (begun reads_only, start) (now.0.terms, now.1) (fed calls) (sent calls) }
    ensures plain { (reads_only : Bool) (calls : List LiveCall) (start : A) (now : LiveView × A) (m : PlainMap) → A.shows start ≡ Some m
        → DoesAll A.answers calls (live_start reads_only, start) now
        → (n : PlainMap) × (A.shows now.1 ≡ Some n) × LivePlainTable A.answers reads_only (fed calls) (sent calls) (frames_of calls) now.0 m n }
{}

/// The letters of changes are those of the requests that ask an operation other than a read, in whatever version: none of these
/// gets past a session that may only read, and nothing else that asks something is turned away.
pub fn letters_tell_changes()
    ensures { (version : Version) (payload : List ℕ) (op : Op) → ((i : ℕ) → slice_index payload i < 256) → request_of version payload ≡ Ok (AskFor op)
        → is_change (slice_index payload 0) ≡ not (is_read op) }
{}

/// A session without ends that waits for input has room for 4,096 bytes of it.
pub fn live_sessions_have_room()
    ensures { (live : LiveView) → IsUnfinished live.kept → 4096 ≤ room_of live }
{}

/// Whatever a session answers to a payload has lines, if whoever it asks answers as a map can.
pub fn sessions_have_lines<A: Ask>()
    ensures { (terms next : Terms) (old new : A) (payload text : List ℕ) → ((i : ℕ) → slice_index payload i < 256)
        → ((op : Op) (answer : Result Reply AskError) → A.answers old op answer new → IsAnswer answer)
        → Answers A.answers (terms, old) payload text (next, new) → HaveLines text }
{}
