// Whether the bytes that a row views are a value of a form.
ghost use Rattle.std.specs.Prelude.{◌≡◌, true, []};
ghost use Rattle.meaning.specs.Bytes.{text_ok, number_ok, date_ok, date_checks};
ghost use Rattle.values.specs.Stages.{rule_of};
ghost use Rattle.date.specs.Dates.{reaching};

use date::Form;
use values::Value;
use values::text::Rule;

// "Text: bytes 20 to FF", and in notes line breaks. Answers whether the rule allows all bytes: whether the reader's own run over them
// comes to their end.
pub fn text_ok(bytes: &[u8], rule: Rule) -> bool
    ensures { result ≡ text_ok (rule_of rule) bytes.now }
{
    let end = bytes.len();
    if end == 0 {
        return true;
    }
    end <= values::text::run(bytes, 0, rule)
}

// Answers whether the bytes are a number: whether the reader's own stage takes all of them.
pub fn number_ok(bytes: &[u8]) -> bool
    ensures { result ≡ number_ok 0 true bytes.now }
{
    let end = bytes.len();
    let Value::Is { after, .. } = values::number::take(bytes, 0) else {
        return false;
    };
    end <= after
}

// Answers whether the bytes are a date of this form. Those of another length are none, and the reader's own stage looks at the others.
pub fn date_ok(bytes: &[u8], form: Form) -> bool
    ensures { result ≡ date_ok (date_checks (reaching form.absolute) form.designated) [] bytes.now }
{
    let end = bytes.len();
    if end != date::length_of(form.designated) {
        return false;
    }
    let Ok(after) = date::bytes(bytes, 0, form) else {
        return false;
    };
    end <= after
}
