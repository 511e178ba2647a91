ghost use Rattle.std.specs.Prelude.{◌≡◌, ◌≤◌, length, true};
ghost use Rattle.pm_replay.specs.Parts.{journal_part, scenario_len, scenario_part};

fn scenario_len(input: &[u8]) -> usize
    ensures value { result ≡ scenario_len true input.now }
    ensures within { result ≤ length input.now }
{
    let mut starts = true;
    for (i, byte) in input.iter().enumerate() {
        if starts && input[i..].starts_with(b"#j ") {
            return i;
        }
        starts = *byte == b'\n';
    }
    input.len()
}

/// An input's scenario and its journal's text: it is cut before the first line that begins with `#j `. It takes no memory.
pub fn parts(input: &[u8]) -> (&[u8], &[u8])
    ensures scenario { result.0.now ≡ scenario_part input.now }
    ensures journal { result.1.now ≡ journal_part input.now }
{
    input.split_at(scenario_len(input))
}
