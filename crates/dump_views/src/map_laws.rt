//! What follows from the definitions. Each law is the contract of a function that does nothing.
ghost use Rattle.std.specs.Prelude.{◌≡◌, ℕ, List, map, Ok, Some, codes, option_and_then};
ghost use Rattle.std.specs.List.{All};
ghost use Rattle.serde_json.specs.Find.{get};
ghost use Rattle.spiffe_doc.specs.Document.{json_tree};
ghost use Rattle.spiffe_doc.specs.Text.{text_of};
ghost use Rattle.map_core.specs.declared.op.Op.TheVariants.{Set};
ghost use Rattle.wire.specs.declared.version.Version.TheVariants.{One};
ghost use Rattle.wire.specs.declared.judge.Judged.TheVariants.{Ask};
ghost use Rattle.wire.specs.Judge.{request_of};
ghost use Rattle.frame_front.specs.Dump.{Domains, IsDump, AreValid};
ghost use Rattle.dump_views.specs.Map.{map_tree, map_text, shown, AreOrdered};
ghost use Rattle.dump_views.specs.Choice.{chosen};
ghost use Rattle.dump_views.specs.declared.profile.Profile.{Profile};
ghost use Rattle.dump_views.specs.declared.error.MemberFault.{MemberFault};
ghost use Rattle.dump_views.specs.declared.error.MapError.{MapError};
ghost use Rattle.dump_views.specs.Import.{IsMap, FaultOfMap, set_request};
ghost use Rattle.dump_views.specs.declared.error.MapError.TheVariants.{Memory};

/// The domains of a dump are valid and in order of their names, and so are those that are chosen of them, and what a
/// map shows of them.
pub fn parts_of_dumps_are_ordered()
    ensures dumps { (dump : List ℕ) (items : Domains) → IsDump dump items → AreOrdered items }
    ensures chosen { (names : List (List ℕ)) (items : Domains) → AreOrdered items → AreOrdered (chosen names items) }
    ensures shown { (profile : Profile) (items : Domains) → AreOrdered items → AreOrdered (map (shown profile) items) }
{}

/// The map of such domains reads as its tree, also for a reader that keeps each member once: under each name stands
/// the tree of the canonical text of that bundle.
pub fn maps_tell_each_bundle()
    ensures tree { (items : Domains) → AreOrdered items → json_tree (map_text items) ≡ Some (map_tree items) }
    ensures bundles { (items : Domains) → AreOrdered items
        → All (λ item. option_and_then (get item.0) (get (codes "trust_domains") (map_tree items)) ≡ json_tree (text_of item.1)) items }
{}

/// The map of such domains is a bundle map of just them, so the requests that it becomes set each of them.
pub fn written_maps_are_maps()
    ensures { (items : Domains) → AreOrdered items → IsMap (map_text items) items }
{}

/// A file is a map of no other domains, and what is a map has no fault.
pub fn maps_have_one_reading()
    ensures domains { (file : List ℕ) (items others : Domains) → IsMap file items → IsMap file others → items ≡ others }
    ensures faultless { (file : List ℕ) (items : Domains) (error : MapError) → IsMap file items → FaultOfMap error file → error ≡ Memory }
{}

/// What a map holds is valid, and each request that it becomes asks to set the bundle of its domain.
pub fn requests_of_maps_set()
    ensures valid { (file : List ℕ) (items : Domains) → IsMap file items → AreValid items }
    ensures set { (file : List ℕ) (items : Domains) → IsMap file items
        → All (λ item. request_of One (set_request item) ≡ Ok (Ask (Set item.0 item.1))) items }
{}
