//! Where the texts of a meeting are from.
ghost use Rattle.std.specs.Prelude.{ℕ};
ghost use Rattle.many_editors.specs.declared.act.MeetAct.{MeetAct};
ghost use Rattle.many_editors.specs.Acts.{met};
ghost use Rattle.many_editors.specs.Meeting.{Meeting, first_meeting};
ghost use Rattle.many_editors.specs.Texts.{IsTextMeeting, MeetActBringsTexts};

/// Law: a meeting begins with texts that may be written, and each act whose job's texts may be written keeps it so.
pub fn meetings_keep_texts()
    ensures first { (n : ℕ) → IsTextMeeting (first_meeting n) }
    ensures acts { (limit n : ℕ) (act : MeetAct) (m : Meeting) → MeetActBringsTexts act → IsTextMeeting m → IsTextMeeting (met limit n act m).meeting }
{}
