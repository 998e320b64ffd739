//! What the definitions mean.
ghost use Rattle.std.specs.Prelude.{◌≡◌, ℕ, ℤ};
ghost use Rattle.osm_base.specs.declared.key.Key.{Key};
ghost use Rattle.osm_base.specs.declared.content.Content.{Content};
ghost use Rattle.osm_table.specs.Table.{TableValue};
ghost use Rattle.dataset.specs.Sound.{IsSound};
ghost use Rattle.upload_order.specs.declared.change.Change.TheVariants.{Create, Modify, Delete};
ghost use Rattle.upload_order.specs.Plan.{plan};
ghost use Rattle.upload_order.specs.World.{World};
ghost use Rattle.placeholder.specs.Confirmed.{confirmed_all};
ghost use Rattle.placeholder.specs.Resumed.{IsReady};
ghost use Rattle.placeholder.specs.Laws.{AreTaken, EndsAs, FairAnswers, FirstAnswer, FirstAnswers, HasAfter, deleted_by_key, made_by_key, modified_by_key, rest_after, rest_after_all, table_after, table_after_all, world_after};

/// What the confirmed table has at each key. An object that was made stands under its id, nothing under its placeholder, and
/// all other contents refer to the id. An object that was changed or deleted stands on the base that the change left, and all
/// else is as it was.
pub fn confirmed_by_key()
    ensures made { (t : TableValue) (k : Key) (c : Content) (id : ℤ) → HasAfter t (Create k c) id (made_by_key t k c id) }
    ensures modified { (t : TableValue) (k : Key) (version : ℕ) (c : Content) (id : ℤ) → HasAfter t (Modify k version c) id (modified_by_key t k version c) }
    ensures deleted { (t : TableValue) (k : Key) (version : ℕ) (id : ℤ) → HasAfter t (Delete k version) id (deleted_by_key t k version) }
{}

/// After the answer to the first change of a plan the confirmed table can be sent to the server as it is then, and its plan
/// is the rest of the plan, where a placeholder that was answered has the id that its object got.
pub fn plan_is_resumed()
    ensures ready { (w : World) (t : TableValue) (a : FirstAnswer w t) → IsReady (world_after a) (table_after a) }
    ensures rest { (w : World) (t : TableValue) (a : FirstAnswer w t) → plan (table_after a) ≡ rest_after a }
{}

/// The server takes any number of first changes one after the other, whatever new ids it gives. After these answers the
/// confirmed table can be sent to the server as it is then, and its plan is the rest of the plan, where each placeholder that
/// was answered has the id that its object got. It is the table that `confirm` makes of these answers.
pub fn plan_is_resumed_after()
    ensures accepted { (w : World) (t : TableValue) (a : FirstAnswers w t) → AreTaken a }
    ensures taken { (w : World) (t : TableValue) (a : FirstAnswers w t) → (v : World) × EndsAs a v }
    ensures ready { (w v : World) (t : TableValue) (a : FirstAnswers w t) → EndsAs a v → IsReady v (table_after_all a) }
    ensures rest { (w v : World) (t : TableValue) (a : FirstAnswers w t) → EndsAs a v → plan (table_after_all a) ≡ rest_after_all a }
{}

/// A confirmed table is sound whatever the server is that gave the answers, if they are within the limits and each id is new
/// to the table.
pub fn confirmed_is_sound()
    ensures { (t : TableValue) (a : FairAnswers t) → IsSound (confirmed_all t a.changes a.ids) }
{}
