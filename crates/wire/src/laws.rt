//! Laws of what has a line.
ghost use Rattle.std.specs.Prelude.{◌≡◌, ℕ, ◌<◌, List, ◌++◌, slice_index, Result, Err, Some};
ghost use Rattle.std.specs.Int.{w32, to_be_bytes};
ghost use Rattle.wire.specs.declared.version.Version.{Version};
ghost use Rattle.wire.specs.declared.refusal.Refusal.{Refusal};
ghost use Rattle.wire.specs.Frame.{HasFrames};
ghost use Rattle.wire.specs.Fields.{place_bytes};
ghost use Rattle.wire.specs.Refusal.{refusal_place};
ghost use Rattle.wire.specs.Judge.{request_of};
ghost use Rattle.wire.specs.Laws.{AnswersAreReplies, AnswersHaveLines, BundleHasLine, DecodesWhatWasEncoded, FoundHasLine, FrameHasOneLine, RefusalsHaveLines, VersionsHaveLines};

/// The reply to a get that finds a bundle has a line, whatever bundle it is.
pub fn found_has_line()
    ensures { FoundHasLine }
{}

/// Each bundle of the reply to a fetch-all has a line.
pub fn bundle_has_line()
    ensures { BundleHasLine }
{}

/// Whatever a map answers has lines.
pub fn answers_have_lines()
    ensures { AnswersHaveLines }
{}

/// The frames that a session answers with are those of the same replies.
pub fn answers_are_replies()
    ensures { AnswersAreReplies }
{}

/// The reply to a payload that is refused has a line.
pub fn refusals_have_lines()
    ensures { RefusalsHaveLines }
{}

/// The reply that tells the version has a line.
pub fn versions_have_lines()
    ensures { VersionsHaveLines }
{}

/// A frame has one line at most.
pub fn frame_has_one_line()
    ensures { FrameHasOneLine }
{}

/// The line of a request becomes its frame, and the frame that line again.
pub fn decodes_what_was_encoded()
    ensures { DecodesWhatWasEncoded }
{}

/// A stream has no other frames and no other rest.
pub fn frames_of_a_stream_are_one()
    ensures { (stream : List ℕ) (ps qs : List (List ℕ)) (r s : List ℕ) →
        HasFrames stream ps r → HasFrames stream qs s → (ps ≡ qs) × (r ≡ s) }
{}

/// The frames of a longer stream are those of its front, and those of what the front left with what
/// follows: so it doesn't matter how a stream is cut.
pub fn frames_follow()
    ensures { (front more rest end : List ℕ) (ps qs : List (List ℕ)) →
        HasFrames front ps rest → HasFrames (rest ++ more) qs end → HasFrames (front ++ more) (ps ++ qs) end }
{}

/// Each stream of bytes has its frames.
pub fn each_stream_has_frames()
    ensures { (stream : List ℕ) → ((i : ℕ) → slice_index stream i < 256)
        → (payloads : List (List ℕ)) × (rest : List ℕ) × HasFrames stream payloads rest }
{}

/// A place that the refusal of a request names is below 1,048,576, so the 4 bytes of a reply spell it.
pub fn places_are_coded_exactly()
    ensures { (version : Version) (payload : List ℕ) (refusal : Refusal) (place : ℕ) → request_of version payload ≡ Err refusal
        → refusal_place refusal ≡ Some place → (place < 1048576) × (place_bytes place ≡ to_be_bytes w32 place) }
{}
