//! What tests of a merge's cases tell.
ghost use Rattle.std.specs.Prelude.{◌≡◌, Bool, ◌↔◌};
ghost use Rattle.osm_base.specs.Told.{Tells};
ghost use Rattle.merge_cases.specs.declared.verdict.Verdict.{Verdict};
ghost use Rattle.merge_cases.specs.declared.verdict.Verdict.TheVariants.{Candidate, Clash};
ghost use Rattle.tool_api.specs.Staged.{is_candidate, is_clash};

/// Law: `is_candidate` says whether the case is that of a candidate to go.
pub fn is_candidate_is_told()
    ensures { (verdict : Verdict) (answer : Bool) → (is_candidate verdict ≡ answer) ↔ Tells (verdict ≡ Candidate) answer }
{}

/// Law: `is_clash` says whether the case is that of one version told in two ways.
pub fn is_clash_is_told()
    ensures { (verdict : Verdict) (answer : Bool) → (is_clash verdict ≡ answer) ↔ Tells (verdict ≡ Clash) answer }
{}
