// The line that names an image.
ghost use Rattle.std.specs.Prelude.{true, false, ◌≡◌, MatchOption};
ghost use Rattle.std.specs.List.{list_all};
ghost use Rattle.std.specs.Char.{is_ascii_alphanumeric};
ghost use Rattle.report_text.specs.Name.{is_name_line, name_in};

const MOST: usize = 32;

fn is_named(name: &[u8]) -> bool
    ensures { result ≡ list_all is_ascii_alphanumeric name.now }
{
    name.iter().all(|b| b.is_ascii_alphanumeric())
}

// The name that a line tells, if the line is not bad.
pub fn name_in(line: &[u8]) -> Option<&[u8]>
    ensures { MatchOption result (is_name_line line.now ≡ false) (λ name. (is_name_line line.now ≡ true) × (name.now ≡ name_in line.now)) }
{
    let Some(name) = line.strip_prefix(b"N\t") else {
        return None;
    };
    if name.is_empty() || MOST < name.len() || !is_named(name) {
        return None;
    }
    Some(name)
}
