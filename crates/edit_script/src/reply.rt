//! The reply line of a step.
ghost use Rattle.std.specs.Prelude.{◌≡◌, ◌++◌, ◌∷◌, OnOk, OnErr, decimal};
ghost use Rattle.std.specs.List.{flat_map};
ghost use Rattle.osm_base.specs.Extends.{Extends};
ghost use Rattle.osm_base.specs.Number.{key_written};
ghost use Rattle.edit_script.specs.Reply.{number_behind, key_behind, text_behind, keys_behind, fault_text, job_refused, refused, reply_text, reply_line};

use opl_file::FileFault;
use opl_text::write_escaped;
use osm_base::{Key, Keys, Text, write_digits, write_key};
use std::alloc::AllocError;
use tool_api::Refusal;

/// Why a step was refused. It then changed nothing.
#[derive(Drop)]
pub enum StepRefusal {
    /// Its job was refused.
    Tool(Refusal),
    /// The shelf has no file of that name.
    NoFile,
    /// The file can't be read.
    BadFile(FileFault),
    /// Less was done than is to be undone.
    NothingToUndo,
    /// Less was undone than is to be redone.
    NothingToRedo,
    /// Nothing is sent: so many objects are in conflict, and this is the least of them.
    OpenConflicts { count: u64, first: Key },
    /// Nothing is sent: this object would be, and refers to one that is only known as referred to.
    IncompleteRef { key: Key, of: Key },
    /// Nothing is sent: these new relations refer to each other, so that none can be made first.
    CyclicNew(Keys),
    /// This line of a file of answers is no answer to its change, or no change is left that it could answer.
    WrongAnswer(u64),
    /// A file of answers gives a new object this key, which stands in the table.
    IdTaken(Key),
    /// This line of a saved table can't stand where it does, or is missing at the end.
    BadSaved(u64),
    /// A saved table isn't sound: of the entries that break a rule of tables, this key has the least.
    Unsound(Key),
    /// The file of a server isn't whole: of its objects that refer to one that isn't there, this is the least.
    BadWorld(Key),
    /// The server had no state so far back: there are so many earlier ones.
    NoState(u64),
    /// The editor waits for no answer.
    NotWaiting,
    /// The editor waits for an answer, and does nothing else to its table or the server until then.
    Waiting,
    /// Nothing is sent: this object would be, and stands in the last version that there is.
    VersionEnd(Key),
}

/// What a step replies.
#[derive(Drop)]
pub enum StepReply {
    /// It was done, and made the objects with these keys.
    Done(Keys),
    /// It was refused.
    Refused(StepRefusal),
    /// It was not tried, since an earlier step of its group was refused.
    Skipped,
}

/// Appends the reply line of the step in that line of the script, with its LF.
///
/// # Errors
/// No memory was left; what stood in `out` stays at its front.
#[tactic(auto, using(osm_base::proofs::ExtendLaws::extends_steps))]
pub fn write_reply(line: u64, reply: &StepReply, out: &mut Vec<u8>) -> Result<(), AllocError>
    ensures written { OnOk result (out.new.items ≡ out.old.items ++ reply_line line reply.now) }
    ensures kept { OnErr result (Extends out.old.items out.new.items) }
{
    write_digits(line, out)?;
    write_text(reply, out)?;
    out.push(b'\n')?;
    Ok(())
}

#[tactic(auto, using(osm_base::proofs::ExtendLaws::extends_steps))]
fn write_text(reply: &StepReply, out: &mut Vec<u8>) -> Result<(), AllocError>
    ensures written { OnOk result (out.new.items ≡ out.old.items ++ reply_text reply.now) }
    ensures kept { OnErr result (Extends out.old.items out.new.items) }
{
    match reply {
        StepReply::Done(made) => {
            out.extend_from_slice(b" ok")?;
            write_keys_behind(made.as_slice(), out)
        }
        StepReply::Refused(why) => {
            out.extend_from_slice(b" refused ")?;
            write_refusal(why, out)
        }
        StepReply::Skipped => {
            out.extend_from_slice(b" skipped")?;
            Ok(())
        }
    }
}

/// Appends the keys behind a space, with commas between them; nothing where there are none.
#[tactic(auto, using(osm_base::proofs::ExtendLaws::extends_steps))]
fn write_keys_behind(keys: &[Key], out: &mut Vec<u8>) -> Result<(), AllocError>
    ensures written { OnOk result (out.new.items ≡ out.old.items ++ keys_behind keys.now) }
    ensures kept { OnErr result (Extends out.old.items out.new.items) }
{
    let [first, others @ ..] = keys else {
        return Ok(());
    };
    write_key_behind(*first, out)?;
    write_more_keys(others, out)
}

#[tactic(auto, using(osm_base::proofs::ExtendLaws::extends_steps))]
fn write_more_keys(keys: &[Key], out: &mut Vec<u8>) -> Result<(), AllocError>
    ensures written { OnOk result (out.new.items ≡ out.old.items ++ flat_map (λ key. 44 ∷ key_written key) keys.now) }
    ensures kept { OnErr result (Extends out.old.items out.new.items) }
{
    for key in keys {
        write_key_after(b',', *key, out)?;
    }
    Ok(())
}

#[tactic(auto, using(osm_base::proofs::ExtendLaws::extends_steps))]
fn write_key_behind(key: Key, out: &mut Vec<u8>) -> Result<(), AllocError>
    ensures written { OnOk result (out.new.items ≡ out.old.items ++ key_behind key) }
    ensures kept { OnErr result (Extends out.old.items out.new.items) }
{
    write_key_after(b' ', key, out)
}

#[tactic(auto, using(osm_base::proofs::ExtendLaws::extends_steps))]
fn write_key_after(mark: u8, key: Key, out: &mut Vec<u8>) -> Result<(), AllocError>
    ensures written { OnOk result (out.new.items ≡ out.old.items ++ (mark ∷ key_written key)) }
    ensures kept { OnErr result (Extends out.old.items out.new.items) }
{
    out.push(mark)?;
    write_key(key, out)
}

#[tactic(auto, using(osm_base::proofs::ExtendLaws::extends_steps))]
fn write_number_behind(number: u64, out: &mut Vec<u8>) -> Result<(), AllocError>
    ensures written { OnOk result (out.new.items ≡ out.old.items ++ number_behind number) }
    ensures kept { OnErr result (Extends out.old.items out.new.items) }
{
    out.push(b' ')?;
    write_digits(number, out)
}

#[tactic(auto, using(osm_base::proofs::ExtendLaws::extends_steps))]
fn write_text_behind(text: &Text, out: &mut Vec<u8>) -> Result<(), AllocError>
    ensures written { OnOk result (out.new.items ≡ out.old.items ++ text_behind text.now) }
    ensures kept { OnErr result (Extends out.old.items out.new.items) }
{
    out.push(b' ')?;
    write_escaped(text, out)
}

#[tactic(auto, using(osm_base::proofs::ExtendLaws::extends_steps))]
fn write_bytes(bytes: &[u8], out: &mut Vec<u8>) -> Result<(), AllocError>
    ensures written { OnOk result (out.new.items ≡ out.old.items ++ bytes.now) }
    ensures kept { OnErr result (Extends out.old.items out.new.items) }
{
    out.extend_from_slice(bytes)?;
    Ok(())
}

#[tactic(auto, using(osm_base::proofs::ExtendLaws::extends_steps))]
fn write_with_key(number: &[u8], key: Key, out: &mut Vec<u8>) -> Result<(), AllocError>
    ensures written { OnOk result (out.new.items ≡ out.old.items ++ (number.now ++ key_behind key)) }
    ensures kept { OnErr result (Extends out.old.items out.new.items) }
{
    out.extend_from_slice(number)?;
    write_key_behind(key, out)
}

#[tactic(auto, using(osm_base::proofs::ExtendLaws::extends_steps))]
fn write_with_text(number: &[u8], text: &Text, out: &mut Vec<u8>) -> Result<(), AllocError>
    ensures written { OnOk result (out.new.items ≡ out.old.items ++ (number.now ++ text_behind text.now)) }
    ensures kept { OnErr result (Extends out.old.items out.new.items) }
{
    out.extend_from_slice(number)?;
    write_text_behind(text, out)
}

#[tactic(auto, using(osm_base::proofs::ExtendLaws::extends_steps))]
fn write_with_number(number: &[u8], carried: u64, out: &mut Vec<u8>) -> Result<(), AllocError>
    ensures written { OnOk result (out.new.items ≡ out.old.items ++ (number.now ++ number_behind carried)) }
    ensures kept { OnErr result (Extends out.old.items out.new.items) }
{
    out.extend_from_slice(number)?;
    write_number_behind(carried, out)
}

/// Appends the number of the refusal, which never changes, and what it carries.
#[tactic(auto, using(osm_base::proofs::ExtendLaws::extends_steps))]
fn write_refusal(why: &StepRefusal, out: &mut Vec<u8>) -> Result<(), AllocError>
    ensures written { OnOk result (out.new.items ≡ out.old.items ++ refused why.now) }
    ensures kept { OnErr result (Extends out.old.items out.new.items) }
{
    match why {
        StepRefusal::Tool(refusal) => write_job_refusal(refusal, out),
        StepRefusal::NoFile => write_bytes(b"19", out),
        StepRefusal::BadFile(fault) => {
            write_bytes(b"20", out)?;
            write_fault(*fault, out)
        }
        StepRefusal::NothingToUndo => write_bytes(b"21", out),
        StepRefusal::NothingToRedo => write_bytes(b"22", out),
        StepRefusal::OpenConflicts { count, first } => {
            write_with_number(b"23", *count, out)?;
            write_key_behind(*first, out)
        }
        StepRefusal::IncompleteRef { key, of } => {
            write_with_key(b"24", *key, out)?;
            write_key_behind(*of, out)
        }
        StepRefusal::CyclicNew(keys) => {
            write_bytes(b"25", out)?;
            write_keys_behind(keys.as_slice(), out)
        }
        StepRefusal::WrongAnswer(number) => write_with_number(b"26", *number, out),
        StepRefusal::IdTaken(key) => write_with_key(b"27", *key, out),
        StepRefusal::BadSaved(number) => write_with_number(b"30", *number, out),
        StepRefusal::Unsound(key) => write_with_key(b"31", *key, out),
        StepRefusal::BadWorld(key) => write_with_key(b"34", *key, out),
        StepRefusal::NoState(number) => write_with_number(b"35", *number, out),
        StepRefusal::NotWaiting => write_bytes(b"36", out),
        StepRefusal::Waiting => write_bytes(b"37", out),
        StepRefusal::VersionEnd(key) => write_with_key(b"38", *key, out),
    }
}

/// Appends the number of the refusal of a job, and the objects that it is about, the key of the tag, or the object and its version.
#[tactic(auto, using(osm_base::proofs::ExtendLaws::extends_steps))]
fn write_job_refusal(refusal: &Refusal, out: &mut Vec<u8>) -> Result<(), AllocError>
    ensures written { OnOk result (out.new.items ≡ out.old.items ++ job_refused refusal.now) }
    ensures kept { OnErr result (Extends out.old.items out.new.items) }
{
    match refusal {
        Refusal::Absent(key) => write_with_key(b"1", *key, out),
        Refusal::IncompleteObject(key) => write_with_key(b"2", *key, out),
        Refusal::DeletedObject(key) => write_with_key(b"3", *key, out),
        Refusal::InConflict(key) => write_with_key(b"4", *key, out),
        Refusal::InUse(key, user) => {
            write_with_key(b"5", *key, out)?;
            write_key_behind(*user, out)
        }
        Refusal::WrongKind(key) => write_with_key(b"6", *key, out),
        Refusal::Unfit(key) => write_with_key(b"7", *key, out),
        Refusal::OutOfRange(key) => write_with_key(b"8", *key, out),
        Refusal::NamedTwice(key) => write_with_key(b"9", *key, out),
        Refusal::NotInWay(key) => write_with_key(b"10", *key, out),
        Refusal::NothingToSplit(key) => write_with_key(b"11", *key, out),
        Refusal::NotJoined(key) => write_with_key(b"12", *key, out),
        Refusal::TagClash(text) => write_with_text(b"13", text, out),
        Refusal::MemberClash(key) => write_with_key(b"14", *key, out),
        Refusal::NoConflict(key) => write_with_key(b"15", *key, out),
        Refusal::NotMixed(key) => write_with_key(b"16", *key, out),
        Refusal::VersionClash(key, version) => {
            write_with_key(b"17", *key, out)?;
            write_number_behind(u64::from(*version), out)
        }
        Refusal::TableFull => write_bytes(b"18", out),
        Refusal::NotClashing(text) => write_with_text(b"29", text, out),
        Refusal::NoFinding(key) => write_with_key(b"32", *key, out),
        Refusal::NotSamePlace(key) => write_with_key(b"33", *key, out),
    }
}

/// Appends the fault of a file.
#[tactic(auto, using(osm_base::proofs::ExtendLaws::extends_steps))]
fn write_fault(fault: FileFault, out: &mut Vec<u8>) -> Result<(), AllocError>
    ensures written { OnOk result (out.new.items ≡ out.old.items ++ fault_text fault) }
    ensures kept { OnErr result (Extends out.old.items out.new.items) }
{
    match fault {
        FileFault::Line { line, fault } => {
            write_numbered(b" line ", line, out)?;
            write_numbered(b" fault ", u64::from(fault.number()), out)
        }
        FileFault::Twice { line } => write_numbered(b" twice ", line, out),
        FileFault::LineTooLong { line } => write_numbered(b" longline ", line, out),
        FileFault::FileTooLong => {
            out.extend_from_slice(b" toolong")?;
            Ok(())
        }
    }
}

/// Appends words and the number behind them.
#[tactic(auto, using(osm_base::proofs::ExtendLaws::extends_steps))]
fn write_numbered(words: &[u8], number: u64, out: &mut Vec<u8>) -> Result<(), AllocError>
    ensures written { OnOk result (out.new.items ≡ out.old.items ++ (words.now ++ decimal number)) }
    ensures kept { OnErr result (Extends out.old.items out.new.items) }
{
    out.extend_from_slice(words)?;
    write_digits(number, out)
}
