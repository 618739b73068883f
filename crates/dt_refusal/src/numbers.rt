//! Numbers in a short text.

ghost use Rattle.std.specs.Prelude.{◌≡◌, ◌≤◌, ◌+◌, ◌++◌, length};
ghost use Rattle.std.specs.Fmt.{decimal};
ghost use Rattle.dt_model.specs.CauseText.{argument};

use dt_base::ShortText;
use itoa::Buffer;

/// Puts a number in decimal at the end, after a blank.
pub fn append_argument(text: &mut ShortText, n: u64)
    requires { length text.old ≤ 128 }
    ensures text { text.new ≡ text.old ++ argument (decimal n) }
    ensures short { length text.new ≤ length text.old + 21 }
{
    let mut buffer = Buffer::new();
    text.append(b" ");
    text.append(buffer.format(n).as_bytes());
}
