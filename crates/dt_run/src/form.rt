//! What the program is asked for.

ghost use Rattle.std.specs.Prelude.{◌≡◌, map, string_bytes};
ghost use Rattle.dt_run.specs.Forms.{form_of};

/// What the words after the program's name ask for.
#[derive(Clone, Copy, Debug, PartialEq, Eq)]
pub enum Form {
    /// `run`: the job is run, and its outputs are printed.
    Run,
    /// `plan`: what the job does on its nodes is printed.
    Plan,
}

/// What these words ask for, and none where they are no words that the program takes.
pub fn form_of(words: &[String]) -> Option<Form>
    ensures { result ≡ form_of (map string_bytes words.now) }
{
    match words {
        [word] if word.as_str() == "run" => Some(Form::Run),
        [word] if word.as_str() == "plan" => Some(Form::Plan),
        _ => None,
    }
}
