//! What the sets by rounds are, said with no round.
ghost use Rattle.std.specs.Prelude.{◌≡◌, ◌↔◌, Bool, true, false, not, List};
ghost use Rattle.std.specs.List.{list_any};
ghost use Rattle.osm_base.specs.Rank.{is_key};
ghost use Rattle.osm_base.specs.declared.key.Key.{Key};
ghost use Rattle.closure.specs.Closure.{has, least, by_chains, by_needs, Chain, Ready};

/// Law: the least set by chains has just the ends of finite chains, where the list has each start and
/// all that is led to.
pub fn ends_of_chains_are_least()
    ensures { (start : Key → Bool) (leads : Key → Key → Bool) (all : List Key)
        → ((k : Key) → start k ≡ true → has is_key all k ≡ true)
        → ((j k : Key) → leads j k ≡ true → has is_key all k ≡ true)
        → (k : Key) → (has is_key (least is_key (by_chains start leads) all) k ≡ true) ↔ Chain start leads k }
{}

/// Law: the least set by needs has just the ready ones of the list, where the list has all that its
/// members need.
pub fn ready_ones_are_least()
    ensures { (needs : Key → List Key) (all : List Key)
        → ((j k : Key) → has is_key all j ≡ true → has is_key (needs j) k ≡ true → has is_key all k ≡ true)
        → (k : Key) → has is_key all k ≡ true → (has is_key (least is_key (by_needs is_key needs) all) k ≡ true) ↔ Ready is_key needs k }
{}

/// Law: each key of the list that is left out of the least set by needs has a need that is left out,
/// and the keys left out are the greatest set of which that holds.
pub fn others_are_stuck()
    ensures stuck { (needs : Key → List Key) (all : List Key) (k : Key) → has is_key all k ≡ true
        → has is_key (least is_key (by_needs is_key needs) all) k ≡ false
        → list_any (λ j. not (has is_key (least is_key (by_needs is_key needs) all) j)) (needs k) ≡ true }
    ensures greatest { (needs : Key → List Key) (all : List Key) (set : Key → Bool)
        → ((k : Key) → set k ≡ true → list_any set (needs k) ≡ true)
        → (k : Key) → has is_key (least is_key (by_needs is_key needs) all) k ≡ true → set k ≡ false }
{}
