ghost use Rattle.std.specs.Prelude.{◌≡◌, drop, slice_get, MatchOption};
ghost use Rattle.pm_io.specs.Memory.{cues_left, next_cue, allowed, in_source};

/// What a device in memory does at one call.
#[derive(Clone, Copy, Debug, PartialEq, Eq)]
pub enum Cue {
    /// No limit.
    All,
    /// The call fails.
    Fail,
    /// At most this many bytes.
    Take(u32),
}

/// The cues of a device, and how many calls have followed one.
#[derive(Debug, Drop)]
pub struct Script {
    cues: Vec<Cue>,
    followed: usize,
}

impl Script {
    /// A script that no call has followed yet.
    pub fn new(cues: Vec<Cue>) -> Script
        ensures { cues_left result ≡ cues.items }
    {
        Script { cues, followed: 0 }
    }

    /// The cue of the next call, which it follows now.
    pub fn follow(&mut self) -> Cue
        ensures cue { result ≡ next_cue (cues_left self.old) }
        ensures left { cues_left self.new ≡ drop 1 (cues_left self.old) }
    {
        let cue = first_after(&self.cues, self.followed);
        self.followed = one_more(&self.cues, self.followed);
        cue
    }
}

fn first_after(cues: &[Cue], followed: usize) -> Cue
    ensures next { result ≡ next_cue (drop followed cues.now) }
    ensures place { MatchOption (slice_get cues.now followed) (result ≡ Cue.All) (λ cue. result ≡ cue) }
{
    match cues.get(followed) {
        Some(cue) => *cue,
        None => Cue::All,
    }
}

fn one_more(cues: &[Cue], followed: usize) -> usize
    ensures { drop result cues.now ≡ drop 1 (drop followed cues.now) }
{
    if followed < cues.len() {
        followed + 1
    } else {
        followed
    }
}

/// How many of `most` bytes the cue lets a call take that doesn't fail.
pub fn at_most(cue: Cue, most: usize) -> usize
    ensures { result ≡ allowed cue most }
{
    match cue {
        Cue::All => most,
        Cue::Fail => 0,
        Cue::Take(n) => if (n as usize) < most {
            n as usize
        } else {
            most
        },
    }
}

/// The cue as a source follows it.
pub fn for_source(cue: Cue) -> Cue
    ensures { result ≡ in_source cue }
{
    match cue {
        Cue::Take(n) => Cue::Take(if n == 0 { 1 } else { n }),
        _ => cue,
    }
}
