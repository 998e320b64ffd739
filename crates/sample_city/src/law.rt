//! What holds of the city.
ghost use Rattle.std.specs.Prelude.{◌≡◌, ◌≤◌, ◌*◌, ◌/◌, ◌%◌, ◌-◌, ℕ, Some, true, is_some, pos};
ghost use Rattle.std.specs.List.{AllByRecursion};
ghost use Rattle.osm_base.specs.Content.{refs_of};
ghost use Rattle.osm_base.specs.declared.key.Key.{Key};
ghost use Rattle.osm_base.specs.declared.content.Content.{Content};
ghost use Rattle.osm_table.specs.Told.{told_at, IsToldMap};
ghost use Rattle.sample_city.specs.City.{as_told, city, place_of, told_by};

/// Law: what a city tells of a key, by the key alone.
pub fn told_by_key()
    ensures { (streets : ℕ) (key : Key) → told_at (city streets) key ≡ told_by streets key }
{}

/// Law: each reference of an object of the city leads to an object of the city.
pub fn references_are_told()
    ensures { (streets : ℕ) (key : Key) (content : Content) → told_at (city streets) key ≡ Some (as_told content)
        → AllByRecursion (λ (r : Key). is_some (told_at (city streets) r) ≡ true) (refs_of content) }
{}

/// Law: a city may be told, as what a server says.
pub fn city_may_be_told()
    ensures { (streets : ℕ) → streets ≤ 100000 → IsToldMap (city streets).told }
{}

/// Law: the nodes stand in a grid, a thousand a row and 0.001 degrees apart.
pub fn nodes_stand_in_a_grid()
    ensures { (k : ℕ) → k ≤ 900001 → ((place_of k).lon ≡ pos ((k - 1) % 1000 * 10000)) × ((place_of k).lat ≡ pos ((k - 1) / 1000 * 10000)) }
{}
