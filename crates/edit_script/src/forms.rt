//! The lines of a script: the first word of a line gives its form, and the form reads the words behind it.
ghost use Rattle.std.specs.Prelude.{◌≡◌, ◌∷◌, codes, IfOk};
ghost use Rattle.map_search.specs.Words.{words_of};
ghost use Rattle.edit_script.specs.Answers.{Gives};
ghost use Rattle.edit_script.specs.Forms.{form_word, IsFormOf};
ghost use Rattle.edit_script.specs.Grammar.{act_of, by_first, choices};
ghost use Rattle.edit_script.specs.Order.{IsMeant};

use crate::fault::Unread;
use crate::items::{
    alone, area_part, coord_word, first_word, key_word, keys_word, members_word, only_keys,
    only_name, only_number, place_words, query_words, refs_word, side_word, tag_keys_word,
    tags_word, two_keys, wanted_part,
};
use crate::step::{Act, HistoryStep, Look, MeetStep, Purpose};
use merge_cases::Choice;
use opl_text::{Pool, read_escaped};
use osm_base::read_digits;
use tool_api::Job;

/// How the words of a line behind the first are read. The forms have the order of their words.
#[derive(Clone, Copy)]
pub enum Form {
    Answer,
    Begin,
    Check,
    Combine,
    Confirm,
    Conflicts,
    Count,
    Delete,
    Download,
    Editor,
    End,
    Erase,
    Fetch,
    Find,
    Fuse,
    Generate,
    Import,
    Lost,
    Members,
    Move,
    Node,
    Nodes,
    Place,
    Print,
    Purge,
    Redo,
    Rehearse,
    Relation,
    Resolve,
    Resume,
    Reverse,
    Save,
    Send,
    Serve,
    Split,
    Squeeze,
    Tag,
    Undo,
    Upload,
    Way,
}

/// The words with which lines begin, in their order, and the forms of these lines.
const FORMS: [(&[u8], Form); 40] = [
    (b"answer", Form::Answer),
    (b"begin", Form::Begin),
    (b"check", Form::Check),
    (b"combine", Form::Combine),
    (b"confirm", Form::Confirm),
    (b"conflicts", Form::Conflicts),
    (b"count", Form::Count),
    (b"delete", Form::Delete),
    (b"download", Form::Download),
    (b"editor", Form::Editor),
    (b"end", Form::End),
    (b"erase", Form::Erase),
    (b"fetch", Form::Fetch),
    (b"find", Form::Find),
    (b"fuse", Form::Fuse),
    (b"generate", Form::Generate),
    (b"import", Form::Import),
    (b"lost", Form::Lost),
    (b"members", Form::Members),
    (b"move", Form::Move),
    (b"node", Form::Node),
    (b"nodes", Form::Nodes),
    (b"place", Form::Place),
    (b"print", Form::Print),
    (b"purge", Form::Purge),
    (b"redo", Form::Redo),
    (b"rehearse", Form::Rehearse),
    (b"relation", Form::Relation),
    (b"resolve", Form::Resolve),
    (b"resume", Form::Resume),
    (b"reverse", Form::Reverse),
    (b"save", Form::Save),
    (b"send", Form::Send),
    (b"serve", Form::Serve),
    (b"split", Form::Split),
    (b"squeeze", Form::Squeeze),
    (b"tag", Form::Tag),
    (b"undo", Form::Undo),
    (b"upload", Form::Upload),
    (b"way", Form::Way),
];

/// The form of the lines that begin with the word. It is looked up: six comparisons of words at most.
fn form_of(word: &[u8]) -> Option<Form>
    ensures { IsFormOf word.now result }
{
    let forms = FORMS.as_slice();
    match forms.binary_search_by_key(&word, |listed| listed.0) {
        Ok(at) => Some(forms[at].1),
        Err(_) => None,
    }
}

/// What the words of a line ask for.
#[tactic(auto, unfolding(crate::specs::Grammar::act_of))]
pub fn act_of(pool: &mut Pool, line: &[u8]) -> Result<Act, Unread>
    ensures value { Gives result (act_of (words_of line.now)) }
    ensures meant { IfOk result IsMeant }
{
    let (word, words) = first_word(line)?;
    match form_of(word) {
        None => Err(Unread::Outside),
        Some(form) => read_form(pool, form, words),
    }
}

/// What the words behind the first ask for.
#[tactic(auto, unfolding(crate::specs::Grammar::act_of))]
fn read_form(pool: &mut Pool, form: Form, words: &[u8]) -> Result<Act, Unread>
    ensures value { Gives result (act_of (form_word form ∷ words_of words.now)) }
    ensures meant { IfOk result IsMeant }
{
    match form {
        Form::Answer => alone(Act::Meet(MeetStep::Answer), words),
        Form::Begin => alone(Act::History(HistoryStep::Begin), words),
        Form::Check => alone(Act::Look(Look::Check), words),
        Form::Combine => Ok(Act::Job(Job::Combine {
            ways: two_keys(pool, words)?,
        })),
        Form::Confirm => Ok(Act::File {
            name: only_name(pool, words)?,
            purpose: Purpose::Confirm,
        }),
        Form::Conflicts => alone(Act::Look(Look::Conflicts), words),
        Form::Count => alone(Act::Look(Look::Count), words),
        Form::Delete => Ok(Act::Job(Job::Delete {
            keys: only_keys(pool, words)?,
        })),
        Form::Download => download(pool, words),
        Form::Editor => Ok(Act::Editor {
            n: only_number(words, 4)?,
        }),
        Form::End => alone(Act::History(HistoryStep::End), words),
        Form::Erase => Ok(Act::Job(Job::Erase {
            keys: only_keys(pool, words)?,
        })),
        Form::Fetch => fetch(pool, words),
        Form::Find => Ok(Act::Look(Look::Find(query_words(pool, words)?))),
        Form::Fuse => Ok(Act::Job(Job::Fuse {
            nodes: two_keys(pool, words)?,
        })),
        Form::Generate => Ok(Act::Generate {
            streets: only_number(words, 100_000)?,
        }),
        Form::Import => Ok(Act::File {
            name: only_name(pool, words)?,
            purpose: Purpose::Import,
        }),
        Form::Lost => alone(Act::Meet(MeetStep::Lost), words),
        Form::Members => set_members(pool, words),
        Form::Move => shift(pool, words),
        Form::Node => add_node(pool, words),
        Form::Nodes => set_nodes(pool, words),
        Form::Place => place(words),
        Form::Print => alone(Act::Look(Look::Print), words),
        Form::Purge => Ok(Act::Job(Job::Purge {
            keys: only_keys(pool, words)?,
        })),
        Form::Redo => Ok(Act::History(HistoryStep::Redo {
            n: u64::from(only_number(words, 1_000_000)?),
        })),
        Form::Rehearse => alone(Act::Look(Look::Rehearse), words),
        Form::Relation => add_relation(pool, words),
        Form::Resolve => resolve(pool, words),
        Form::Resume => Ok(Act::File {
            name: only_name(pool, words)?,
            purpose: Purpose::Resume,
        }),
        Form::Reverse => reverse(words),
        Form::Save => alone(Act::Look(Look::Save), words),
        Form::Send => Ok(Act::Meet(MeetStep::Send {
            count: only_number(words, 10_000)?,
        })),
        Form::Serve => Ok(Act::Serve {
            name: only_name(pool, words)?,
        }),
        Form::Split => split(pool, words),
        Form::Squeeze => Ok(Act::Job(Job::Squeeze {
            keys: only_keys(pool, words)?,
        })),
        Form::Tag => set_tags(pool, words),
        Form::Undo => Ok(Act::History(HistoryStep::Undo {
            n: u64::from(only_number(words, 1_000_000)?),
        })),
        Form::Upload => Ok(Act::Look(Look::Upload {
            size: only_number(words, 10_000)?,
        })),
        Form::Way => add_way(pool, words),
    }
}

/// `download FILE`, and then `B..` and `F..`, of which each can be left out.
#[tactic(auto, unfolding(crate::specs::Grammar::act_of))]
fn download(pool: &mut Pool, words: &[u8]) -> Result<Act, Unread>
    ensures value { Gives result (act_of (codes "download" ∷ words_of words.now)) }
    ensures meant { IfOk result IsMeant }
{
    let (word, rest) = first_word(words)?;
    let name = read_escaped(pool, word)?;
    let (area, rest) = area_part(rest)?;
    let (wanted, rest) = wanted_part(pool, rest)?;
    let purpose = Purpose::Download { area, wanted };
    alone(Act::File { name, purpose }, rest)
}

/// `fetch M`, and then `B..` and `F..` as of a `download`.
#[tactic(auto, unfolding(crate::specs::Grammar::act_of))]
fn fetch(pool: &mut Pool, words: &[u8]) -> Result<Act, Unread>
    ensures value { Gives result (act_of (codes "fetch" ∷ words_of words.now)) }
    ensures meant { IfOk result IsMeant }
{
    let (word, rest) = first_word(words)?;
    let back = read_digits(word, 7).ok_or(Unread::Outside)?;
    let (area, rest) = area_part(rest)?;
    let (wanted, rest) = wanted_part(pool, rest)?;
    let step = MeetStep::Fetch { back, area, wanted };
    alone(Act::Meet(step), rest)
}

/// `node x.. y.. T..`.
#[tactic(auto, unfolding(crate::specs::Grammar::act_of))]
fn add_node(pool: &mut Pool, words: &[u8]) -> Result<Act, Unread>
    ensures value { Gives result (act_of (codes "node" ∷ words_of words.now)) }
    ensures meant { IfOk result IsMeant }
{
    let (x, rest) = first_word(words)?;
    let (y, rest) = first_word(rest)?;
    let at = place_words(x, y)?;
    let (word, rest) = first_word(rest)?;
    let tags = tags_word(pool, word)?;
    alone(Act::Job(Job::AddNode { tags, at }), rest)
}

/// `way T.. N..`.
#[tactic(auto, unfolding(crate::specs::Grammar::act_of))]
fn add_way(pool: &mut Pool, words: &[u8]) -> Result<Act, Unread>
    ensures value { Gives result (act_of (codes "way" ∷ words_of words.now)) }
    ensures meant { IfOk result IsMeant }
{
    let (word, rest) = first_word(words)?;
    let tags = tags_word(pool, word)?;
    let (word, rest) = first_word(rest)?;
    let refs = refs_word(pool, word)?;
    alone(Act::Job(Job::AddWay { tags, refs }), rest)
}

/// `relation T.. M..`.
#[tactic(auto, unfolding(crate::specs::Grammar::act_of))]
fn add_relation(pool: &mut Pool, words: &[u8]) -> Result<Act, Unread>
    ensures value { Gives result (act_of (codes "relation" ∷ words_of words.now)) }
    ensures meant { IfOk result IsMeant }
{
    let (word, rest) = first_word(words)?;
    let tags = tags_word(pool, word)?;
    let (word, rest) = first_word(rest)?;
    let members = members_word(pool, word)?;
    alone(Act::Job(Job::AddRelation { tags, members }), rest)
}

/// `tag KEYS T..`.
#[tactic(auto, unfolding(crate::specs::Grammar::act_of))]
fn set_tags(pool: &mut Pool, words: &[u8]) -> Result<Act, Unread>
    ensures value { Gives result (act_of (codes "tag" ∷ words_of words.now)) }
    ensures meant { IfOk result IsMeant }
{
    let (word, rest) = first_word(words)?;
    let keys = keys_word(pool, word)?;
    let (word, rest) = first_word(rest)?;
    let tags = tags_word(pool, word)?;
    alone(Act::Job(Job::SetTags { keys, tags }), rest)
}

/// `move KEYS DX DY`.
#[tactic(auto, unfolding(crate::specs::Grammar::act_of))]
fn shift(pool: &Pool, words: &[u8]) -> Result<Act, Unread>
    ensures value { Gives result (act_of (codes "move" ∷ words_of words.now)) }
    ensures meant { IfOk result IsMeant }
{
    let (word, rest) = first_word(words)?;
    let keys = keys_word(pool, word)?;
    let (word, rest) = first_word(rest)?;
    let dx = coord_word(word)?;
    let (word, rest) = first_word(rest)?;
    let dy = coord_word(word)?;
    alone(Act::Job(Job::Shift { keys, dx, dy }), rest)
}

/// `place KEY x.. y..`.
#[tactic(auto, unfolding(crate::specs::Grammar::act_of))]
fn place(words: &[u8]) -> Result<Act, Unread>
    ensures value { Gives result (act_of (codes "place" ∷ words_of words.now)) }
    ensures meant { IfOk result IsMeant }
{
    let (word, rest) = first_word(words)?;
    let key = key_word(word)?;
    let (x, rest) = first_word(rest)?;
    let (y, rest) = first_word(rest)?;
    let at = place_words(x, y)?;
    alone(Act::Job(Job::Place { key, at }), rest)
}

/// `nodes KEY N..`.
#[tactic(auto, unfolding(crate::specs::Grammar::act_of))]
fn set_nodes(pool: &mut Pool, words: &[u8]) -> Result<Act, Unread>
    ensures value { Gives result (act_of (codes "nodes" ∷ words_of words.now)) }
    ensures meant { IfOk result IsMeant }
{
    let (word, rest) = first_word(words)?;
    let key = key_word(word)?;
    let (word, rest) = first_word(rest)?;
    let refs = refs_word(pool, word)?;
    alone(Act::Job(Job::SetNodes { key, refs }), rest)
}

/// `members KEY M..`.
#[tactic(auto, unfolding(crate::specs::Grammar::act_of))]
fn set_members(pool: &mut Pool, words: &[u8]) -> Result<Act, Unread>
    ensures value { Gives result (act_of (codes "members" ∷ words_of words.now)) }
    ensures meant { IfOk result IsMeant }
{
    let (word, rest) = first_word(words)?;
    let key = key_word(word)?;
    let (word, rest) = first_word(rest)?;
    let members = members_word(pool, word)?;
    alone(Act::Job(Job::SetMembers { key, members }), rest)
}

/// `reverse KEY`.
#[tactic(auto, unfolding(crate::specs::Grammar::act_of))]
fn reverse(words: &[u8]) -> Result<Act, Unread>
    ensures value { Gives result (act_of (codes "reverse" ∷ words_of words.now)) }
    ensures meant { IfOk result IsMeant }
{
    let (word, rest) = first_word(words)?;
    let way = key_word(word)?;
    alone(Act::Job(Job::Reverse { way }), rest)
}

/// `split KEY KEYS`.
#[tactic(auto, unfolding(crate::specs::Grammar::act_of))]
fn split(pool: &Pool, words: &[u8]) -> Result<Act, Unread>
    ensures value { Gives result (act_of (codes "split" ∷ words_of words.now)) }
    ensures meant { IfOk result IsMeant }
{
    let (word, rest) = first_word(words)?;
    let way = key_word(word)?;
    let (word, rest) = first_word(rest)?;
    let nodes = keys_word(pool, word)?;
    alone(Act::Job(Job::Split { way, nodes }), rest)
}

/// `resolve KEY` and a choice.
#[tactic(auto, unfolding(crate::specs::Grammar::act_of))]
fn resolve(pool: &mut Pool, words: &[u8]) -> Result<Act, Unread>
    ensures value { Gives result (act_of (codes "resolve" ∷ words_of words.now)) }
    ensures meant { IfOk result IsMeant }
{
    let (word, rest) = first_word(words)?;
    let key = key_word(word)?;
    let choice = choice_of(pool, rest)?;
    Ok(Act::Job(Job::Resolve { key, choice }))
}

/// What the words choose.
fn choice_of(pool: &mut Pool, words: &[u8]) -> Result<Choice, Unread>
    ensures { Gives result (by_first choices (words_of words.now)) }
{
    let (how, rest) = first_word(words)?;
    if how == b"mine".as_slice() {
        alone(Choice::Mine, rest)
    } else if how == b"theirs".as_slice() {
        alone(Choice::Theirs, rest)
    } else if how == b"mix".as_slice() {
        mix(rest)
    } else if how == b"parts".as_slice() {
        parts(pool, rest)
    } else {
        Err(Unread::Outside)
    }
}

/// `mix S S`: whose tags, then whose body.
fn mix(words: &[u8]) -> Result<Choice, Unread>
    ensures { Gives result (by_first choices (codes "mix" ∷ words_of words.now)) }
{
    let (word, rest) = first_word(words)?;
    let tags = side_word(word)?;
    let (word, rest) = first_word(rest)?;
    let body = side_word(word)?;
    alone(Choice::Mix { tags, body }, rest)
}

/// `parts S K..`: whose body, then the keys of the tags that are theirs.
fn parts(pool: &mut Pool, words: &[u8]) -> Result<Choice, Unread>
    ensures { Gives result (by_first choices (codes "parts" ∷ words_of words.now)) }
{
    let (word, rest) = first_word(words)?;
    let body = side_word(word)?;
    let (word, rest) = first_word(rest)?;
    let theirs = tag_keys_word(pool, word)?;
    alone(Choice::Parts { body, theirs }, rest)
}
