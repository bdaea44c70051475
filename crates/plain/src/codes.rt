// A step where a code is awaited: the room's move at the byte.
ghost use Rattle.std.specs.Prelude.{◌≡◌, List, ℕ, ◌+◌, ◌≤◌, ◌<◌, None, Some, false, ◌&&◌, eqb, ltb, length};
ghost use Rattle.meaning.specs.Told as meaning;
ghost use Rattle.meaning.specs.Kinds.{agent_name};
ghost use Rattle.meaning.specs.Reading.{level_most};
ghost use Rattle.laws_steps.specs.Pouring.{header_most};
ghost use Rattle.table.specs.Kinds.{number_of};
ghost use Rattle.table.specs.Told.{told_of};
ghost use Rattle.plain.specs.declared.standing.Standing as declared;
ghost use Rattle.plain.specs.Steps.{CodeSteps, Here};

use crate::feed::{Fed, Pending, Taking, feed_text};
use crate::standing::Standing;
use moves::look::move_at;
use moves::rooms::{Form, Move, Next};
use table::kinds::Kind;
use table::limits::LEVEL_MOST;
use table::refusals::Refusal;
use table::told::Told;
use values::text::Rule;

impl Standing {
    // Takes the byte at a place where a code is awaited.
    pub fn code_step(self, told: Told, s: &[u8], at: usize) -> Fed
        requires { (at < length s.now) × (at < header_most) }
        ensures { CodeSteps self (told_of told) s.now at result }
    {
        match move_at(told.edition, self.room, s[at]) {
            None => self.nothing(at),
            Some(Move::Coded(kind, form, next)) => self.coded(kind, form, next, at),
            Some(Move::Quiet(next)) => Fed::Moves(next),
            Some(Move::Uncoded(kind, rule, next)) => self.uncoded(kind, rule, next, s, at),
        }
    }

    // A byte that no move has: behind the envelope's 01 nothing is read; elsewhere it is refused.
    fn nothing(self, at: usize) -> Fed
        ensures { (t : meaning.Told) (s : List ℕ) → Here t s at self.room None → CodeSteps self t s at result }
    {
        if self.room.is_closed() {
            return Fed::Over;
        }
        Fed::Wrong(self.room.strange().at(at))
    }

    // "12: agent of level 9, its 02."
    fn too_deep(self, kind: Kind) -> bool
        ensures { result ≡ (eqb (number_of kind) agent_name && ltb level_most self.lists.depth) }
    {
        kind == Kind::AgentName && LEVEL_MOST < self.lists.level()
    }

    // A move whose code is the byte.
    fn coded(self, kind: Kind, form: Form, next: Next, at: usize) -> Fed
        requires { at < header_most }
        ensures { (t : meaning.Told) (s : List ℕ) → Here t s at self.room (Some (Move.Coded kind form next)) → CodeSteps self t s at result }
    {
        if self.too_deep(kind) {
            return Fed::Wrong(Refusal::AgentLevel.at(at));
        }
        begun(kind, form, next, at)
    }

    // A text that begins at the byte.
    fn uncoded(self, kind: Kind, rule: Rule, next: Next, s: &[u8], at: usize) -> Fed
        requires { at < length s.now }
        ensures { (t : meaning.Told) → Here t s.now at self.room (Some (Move.Uncoded kind rule next)) → CodeSteps self t s.now at result }
    {
        if self.too_deep(kind) {
            return Fed::Wrong(Refusal::AgentLevel.at(at));
        }
        let start = at;
        feed_text(rule, Pending { kind, next, start }, s, at)
    }
}

// A move whose code is the byte, by the form of its value.
fn begun(kind: Kind, form: Form, next: Next, at: usize) -> Fed
    requires { at < header_most }
    ensures { (t : meaning.Told) (s : List ℕ) (r : declared.Standing) → (eqb (number_of kind) agent_name && ltb level_most r.lists.depth) ≡ false → Here t s at r.room (Some (Move.Coded kind form next)) → CodeSteps r t s at result }
{
    let here = Pending {
        kind,
        next,
        start: at,
    };
    let of = Pending {
        start: at + 1,
        ..here
    };
    match form {
        Form::Text(rule) => Fed::Goes(Taking::Text { rule, of }),
        Form::Date {
            absolute,
            designated,
        } => Fed::Goes(Taking::Date {
            absolute,
            designated,
            of,
        }),
        Form::Number => Fed::Goes(Taking::Number { so_far: 0, of }),
        Form::OneByte => length_of_bytes(1, of),
        Form::TwoBytes => length_of_bytes(2, of),
        Form::FourBytes => length_of_bytes(4, of),
        Form::Itself => Fed::Ends {
            of: here,
            length: 1,
        },
        Form::Opens => Fed::Ends {
            of: here,
            length: 0,
        },
    }
}

// The length of a block, of which no byte is taken yet.
fn length_of_bytes(width: usize, of: Pending) -> Fed
    ensures { result ≡ Fed.Goes (Taking.Length width 0 of) }
{
    Fed::Goes(Taking::Length {
        width,
        so_far: 0,
        of,
    })
}
