//! Many editors at one server.
ghost use Rattle.std.specs.Prelude.{◌≡◌, ◌<◌, ◌++◌, ◌∷◌, None, Ok, [], length, map, take, is_some, IfOk, IfSome, IfNone, OnOk, OnErr};
ghost use Rattle.std.specs.Option.{option_copied};
ghost use Rattle.download.specs.Tell.{AreTellable};
ghost use Rattle.edit_history.specs.Trail.{KeepNothing};
ghost use Rattle.upload_order.specs.Refused.{upload};
ghost use Rattle.upload_order.specs.World.{IsSoundWorld};
ghost use Rattle.server_world.specs.Unsound.{first_unsound};
ghost use Rattle.many_editors.specs.declared.act.MeetAct.TheVariants as act;
ghost use Rattle.many_editors.specs.Acts.{met};
ghost use Rattle.many_editors.specs.Asked.{MayAct, MayServe, IsSeen, NeverClashes};
ghost use Rattle.many_editors.specs.Boxed.{shown_meeting, verbs_met, AreValid, ComesOf, FitsMeeting, IsAsked, IsKept, IsServed, KeepsVerbs, LeftMeeting, MovedMeeting, ValidMeeting};
ghost use Rattle.many_editors.specs.Laws.{AllKeysStand};
ghost use Rattle.many_editors.specs.Left.{changes_sent};
ghost use Rattle.many_editors.specs.Meeting.{first_meeting, joined, IfEditor};
ghost use Rattle.many_editors.specs.Parts.{changes_at, fetched, sent_at, IsAt, MayFetch, MaySend};
ghost use Rattle.many_editors.specs.Sending as sending;
ghost use Rattle.many_editors.specs.Serving.{objects_served, with_served};
ghost use Rattle.many_editors.specs.Shown as shown;
ghost use Rattle.many_editors.specs.States.{world_of};

use crate::act::MeetAct;
use crate::editor::{Editor, Waiting};
use crate::log::{Before, copied, objects_before};
use crate::reply::{MeetRefusal, MeetReply};
use crate::sending::{first_changes, send, version_end};
use dataset::DataSet;
use download::filter;
use edit_history::{EditStep, Group, History};
use opl_file::Objects;
use opl_line::OplObject;
use osm_base::{Area, Key, Tags};
use osm_table::Shared;
use server_world::{World, WorldEntry};
use std::alloc::{AllocError, Global};
use std::mem;
use tool_api::{Job, Tool};
use upload_order::{Changes, PlanRefusal, plan};

/// A server in memory with its earlier states, and editors, numbered from 0.
///
/// `shown_meeting` is what a meeting is seen as. `ValidMeeting` is true of each that `new` made.
#[derive(Drop)]
pub struct Meeting {
    world: World,
    log: Vec<Before>,
    editors: Vec<Editor>,
}

impl Meeting {
    /// A server that has nothing, and no editors. It takes no memory.
    pub fn new(alloc: Global) -> Meeting
        ensures valid { ValidMeeting done undone result }
        ensures meeting { shown_meeting done undone result ≡ first_meeting 0 }
        ensures verbs { verbs_met kind result ≡ [] }
    {
        Meeting {
            world: World::new(alloc),
            log: Vec::new(alloc),
            editors: Vec::new(alloc),
        }
    }

    /// One editor more, with tools that have done nothing yet. Its number is how many there were.
    ///
    /// # Errors
    /// No memory was left. The meeting isn't used any more then.
    pub fn join(&mut self, tools: Vec<Box<dyn Tool>>) -> Result<(), AllocError>
        requires valid { shown.ValidMeeting done undone self.old }
        requires dones { KeepNothing (map done tools.items) }
        requires undones { KeepNothing (map undone tools.items) }
        ensures valid { OnOk result (shown.ValidMeeting done undone self.new) }
        ensures meeting { OnOk result (shown.shown_meeting done undone self.new ≡ joined (shown.shown_meeting done undone self.old)) }
        ensures verbs { OnOk result (shown.verbs_met kind self.new ≡ shown.verbs_met kind self.old ++ map kind tools.items ∷ []) }
    {
        let alloc = self.alloc();
        self.editors.push(Editor {
            history: History::new(alloc, tools),
            waiting: None,
        })?;
        Ok(())
    }

    /// Makes the objects of a file those of the server, before any act. Where a live object refers to one that isn't live
    /// among them the answer is the least such object, and nothing has changed. Costs a copy of the objects.
    ///
    /// # Errors
    /// No memory was left, and nothing has changed.
    pub fn serve(&mut self, objects: &Objects) -> Result<Option<Key>, AllocError>
        requires fits { FitsMeeting done undone kind self.old (MayServe objects.now) }
        ensures valid { ValidMeeting done undone self.new }
        ensures verbs { KeepsVerbs kind self.old self.new }
        ensures answer { IfOk result (λ answer. answer ≡ first_unsound (world_of (objects_served objects.now))) }
        ensures meeting { IfOk result (λ answer. IfNone answer (IsServed done undone objects.now self.old self.new)) }
        ensures unsound { IfOk result (λ answer. IfSome answer (λ key. IsKept done undone self.old self.new)) }
        ensures err { OnErr result (IsKept done undone self.old self.new) }
    {
        let mut world = served(self.alloc(), objects)?;
        swap_sound(&mut self.world, &mut world)
    }

    /// What an editor does, and what comes of it, with at most so many objects in its table.
    ///
    /// A step on its own table costs what it costs in a history; a fetch a walk over the objects of the server, and over the
    /// changes since the state that is fetched; a send the plan and what the changes cost; an answer the edits that it
    /// makes. No state of the server is kept whole. While an editor waits its plan is kept.
    ///
    /// # Errors
    /// No memory was left. Then each editor's table is sound, and the server has the first of the changes that were sent, as
    /// many as it has states more, each whole, and nothing of the others. The meeting isn't used any more then.
    pub fn step(
        &mut self,
        editor: usize,
        act: &MeetAct,
        limit: u64,
    ) -> Result<MeetReply, AllocError>
        requires fits { FitsMeeting done undone kind self.old (MayAct editor act.now) }
        // It answers and does what the definition says, and the meeting is sound again.
        ensures moved { MovedMeeting done undone kind self.old self.new result (met limit editor act.now) }
        // What is sent overwrites nothing unseen.
        ensures seen { OnOk result (IsSeen editor act.now (shown_meeting done undone self.old)) }
        // A fetch is never refused for a clash of versions.
        ensures clash { IfOk result (NeverClashes act.now) }
        // Each object with a server's id in a table of an editor stands at the server.
        ensures keys { OnOk result (AllKeysStand (shown_meeting done undone self.new)) }
        // After want of memory each change that was accepted stands whole, and it is said which.
        ensures left { OnErr result (LeftMeeting done undone kind editor (changes_sent act.now) self.old self.new) }
    {
        self.editors[editor].history.ds().sound();
        self.act(editor, act, limit)
    }

    /// The same: what comes of it.
    fn act(&mut self, editor: usize, act: &MeetAct, limit: u64) -> Result<MeetReply, AllocError>
        requires { FitsMeeting done undone kind self.old (MayAct editor act.now) }
        ensures moved { MovedMeeting done undone kind self.old self.new result (met limit editor act.now) }
        ensures left { OnErr result (LeftMeeting done undone kind editor (changes_sent act.now) self.old self.new) }
    {
        self.editors[editor].history.ds().sound();
        if self.editors[editor].waiting.is_some() {
            return self.editors[editor].wait(act);
        }
        match act {
            MeetAct::Own(step) => self.editors[editor].step(step, limit),
            MeetAct::Fetch { back, area, wanted } => {
                self.fetch(editor, *back, *area, *wanted, limit)
            }
            MeetAct::Send { count } => self.send(editor, *count),
            MeetAct::Answer => Ok(MeetReply::Refused(MeetRefusal::NotWaiting)),
            MeetAct::Lost => Ok(MeetReply::Refused(MeetRefusal::NotWaiting)),
        }
    }

    /// The data set of an editor.
    pub fn ds(&self, editor: usize) -> &DataSet
        requires { editor < length (shown_meeting done undone self.now).editors }
        ensures { IfEditor editor (shown_meeting done undone self.now) (λ e. result.now ≡ e.state.now) }
    {
        self.editors[editor].history.ds()
    }

    /// Whether an editor has a group open.
    pub fn group(&self, editor: usize) -> Group
        requires { editor < length (shown_meeting done undone self.now).editors }
        ensures { IfEditor editor (shown_meeting done undone self.now) (λ e. result ≡ e.state.group) }
    {
        self.editors[editor].history.group()
    }

    /// Whether an editor waits for an answer.
    pub fn waits(&self, editor: usize) -> bool
        requires { editor < length (shown_meeting done undone self.now).editors }
        ensures { IfEditor editor (shown_meeting done undone self.now) (λ e. result ≡ is_some e.waits) }
    {
        self.editors[editor].waiting.is_some()
    }

    /// The server.
    pub fn world(&self) -> &World
        ensures { result.now ≡ (shown_meeting done undone self.now).world }
    {
        &self.world
    }

    fn alloc(&self) -> Global {
        *self.editors.allocator()
    }

    /// A fetch of an editor at work.
    fn fetch(
        &mut self,
        editor: usize,
        back: u64,
        area: Option<Area>,
        wanted: Option<&Tags>,
        limit: u64,
    ) -> Result<MeetReply, AllocError>
        requires valid { ValidMeeting done undone self.old }
        requires asked { IsAsked done undone kind self.old (IsAt editor MayFetch) }
        ensures comes { ComesOf done undone kind self.old self.new result (fetched limit editor back area (option_copied wanted.entry)) }
        ensures left { OnErr result (LeftMeeting done undone kind editor (λ _. []) self.old self.new) }
    {
        let alloc = self.alloc();
        match objects_before(alloc, &self.world, self.log.as_slice(), back)? {
            None => self.editors[editor].refuse_state(self.log.len() as u64),
            Some(objects) => {
                let told = Shared::new(alloc, filter(alloc, objects, area, wanted)?)?;
                let job = Job::Merge { told };
                self.editors[editor].step(&EditStep::Run(&job), limit)
            }
        }
    }

    /// A send of an editor at work.
    fn send(&mut self, editor: usize, count: u32) -> Result<MeetReply, AllocError>
        requires valid { AreValid done undone self.old }
        requires asked { IsAsked done undone kind self.old (IsAt editor MaySend) }
        ensures comes { ComesOf done undone kind self.old self.new result (sent_at editor count) }
        ensures left { OnErr result (LeftMeeting done undone kind editor (changes_sent (act.Send count)) self.old self.new) }
    {
        let changes = match plan(self.editors[editor].history.ds()) {
            Ok(changes) => changes,
            Err(PlanRefusal::Memory) => return Err(AllocError),
            Err(why) => return Ok(MeetReply::Refused(MeetRefusal::Plan(why))),
        };
        if let Some(key) = version_end(first_changes(changes.as_slice(), count)) {
            return Ok(MeetReply::Refused(MeetRefusal::VersionEnd(key)));
        }
        self.send_first(editor, changes, count)
    }

    /// Sends the first changes of an editor's plan, of which none is of an object in the last version.
    fn send_first(
        &mut self,
        editor: usize,
        changes: Changes,
        count: u32,
    ) -> Result<MeetReply, AllocError>
        requires valid { AreValid done undone self.old }
        requires asked { editor < length (shown_meeting done undone self.old).editors }
        requires planned { IfEditor editor (shown_meeting done undone self.old) (λ e. upload e.state.now ≡ Ok changes) }
        requires before_end { sending.version_end (take count changes) ≡ None }
        ensures comes { ComesOf done undone kind self.old self.new result (changes_at editor (take count changes)) }
        ensures left { OnErr result (LeftMeeting done undone kind editor (λ _. take count changes) self.old self.new) }
    {
        let alloc = self.alloc();
        let ds = self.editors[editor].history.ds();
        let first = first_changes(changes.as_slice(), count);
        let outcome = send(alloc, &mut self.world, &mut self.log, ds, first)?;
        let accepted = outcome.answers.len() as u64;
        self.editors[editor].waiting = Some(Waiting {
            plan: changes,
            answers: outcome.answers,
        });
        Ok(MeetReply::Sent(accepted, outcome.refused))
    }
}

/// Has a server and a world change places where the world is sound; else the answer is its least object that refers to one
/// that isn't live. Neither is dropped here, so that no way out has a world to take apart.
fn swap_sound(server: &mut World, world: &mut World) -> Result<Option<Key>, AllocError>
    ensures answer { IfOk result (λ answer. answer ≡ first_unsound world.old) }
    ensures sound { IfOk result (λ answer. IfNone answer (IsSoundWorld world.old)) }
    ensures swapped { IfOk result (λ answer. IfNone answer (server.new ≡ world.old)) }
    ensures kept { IfOk result (λ answer. IfSome answer (λ key. server.new ≡ server.old)) }
    ensures err { OnErr result (server.new ≡ server.old) }
{
    match world.first_unsound()? {
        Some(key) => Ok(Some(key)),
        None => {
            mem::swap(server, world);
            Ok(None)
        }
    }
}

/// A server with these objects, each as it stands in the file.
fn served(alloc: Global, objects: &Objects) -> Result<World, AllocError>
    requires { AreTellable objects.now }
    ensures { IfOk result (λ world. world ≡ world_of (objects_served objects.now)) }
{
    let mut world = World::new(alloc);
    for batch in objects.batches() {
        serve_batch(&mut world, batch)?;
    }
    Ok(world)
}

fn serve_batch(world: &mut World, objects: &[OplObject]) -> Result<(), AllocError>
    requires { AreTellable objects.now }
    ensures { OnOk result (world.new ≡ record { entries = with_served world.old.entries objects.now; names = world.old.names }) }
{
    for object in objects {
        let entry = WorldEntry::new(u64::from(object.version), copied(object.side.as_ref())?);
        world.put(object.key, entry)?;
    }
    Ok(())
}
