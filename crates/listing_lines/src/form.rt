//! Forms of listings.

ghost use Rattle.std.specs.Prelude.{◌≡◌};
ghost use Rattle.listing_lines.specs.Forms.{is_two};

/// How a listing names instructions and targets: by numbers, or by labels.
#[derive(Clone, Copy)]
pub enum Form {
    One,
    Two,
}

/// Whether the form is the second.
pub fn is_two(form: Form) -> bool
    ensures { result ≡ is_two form }
{
    match form {
        Form::One => false,
        Form::Two => true,
    }
}
