//! The forms of the lines of a proof log, told by the words before the numbers.
ghost use Rattle.std.specs.Prelude.{◌≡◌, bytes_eq};
ghost use Rattle.log_lines.specs.Line.{form_name};
ghost use Rattle.log_lines.specs.Reading.{form_named};

/// A line without its numbers.
#[derive(Clone, Copy)]
pub(crate) enum Form {
    Header,
    Node,
    Cut,
    Found,
    Value,
    Empty,
    Point,
    Dual,
    Pending,
    Floor,
    Split,
    Mult,
    ClaimOptimal,
    ClaimInfeasible,
    ClaimBetween,
    ClaimBelow,
    End,
}

/// Each form once.
const FORMS: [Form; 17] = [
    Form::Header,
    Form::Node,
    Form::Cut,
    Form::Found,
    Form::Value,
    Form::Empty,
    Form::Point,
    Form::Dual,
    Form::Pending,
    Form::Floor,
    Form::Split,
    Form::Mult,
    Form::ClaimOptimal,
    Form::ClaimInfeasible,
    Form::ClaimBetween,
    Form::ClaimBelow,
    Form::End,
];

// The form that these words name.
#[tactic(auto, unfolding(crate::specs::Reading::form_named))]
pub(crate) fn form_of(name: &[u8]) -> Option<Form>
    ensures { result ≡ form_named name.now }
{
    FORMS.iter().copied().find(|form| is_name(*form, name))
}

// Whether the words are those of the form.
fn is_name(form: Form, name: &[u8]) -> bool
    ensures { result ≡ bytes_eq (form_name form) name.now }
{
    words_of(form) == name
}

// The words of a form.
pub(crate) fn words_of(form: Form) -> &'static [u8]
    ensures { result.now ≡ form_name form }
{
    match form {
        Form::Header => b"stn-log",
        Form::Node => b"node",
        Form::Cut => b"cut",
        Form::Found => b"found",
        Form::Value => b"value",
        Form::Empty => b"empty",
        Form::Point => b"point",
        Form::Dual => b"dual",
        Form::Pending => b"pending",
        Form::Floor => b"floor",
        Form::Split => b"split",
        Form::Mult => b"mult",
        Form::ClaimOptimal => b"claim optimal",
        Form::ClaimInfeasible => b"claim infeasible",
        Form::ClaimBetween => b"claim between",
        Form::ClaimBelow => b"claim below",
        Form::End => b"end",
    }
}
