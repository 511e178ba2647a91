// How far agents run ahead of one another. No theorem needs it.
use pm_base::Line;

// The fewest and the most agents whose next steps an epoch lets through.
const FEWEST: usize = 4;

const MOST: usize = 1024;

// In how many parts a delivery is counted.
const PARTS: u64 = 64;

/// The next steps of how many agents an epoch lets through. Agents of one time that meet at one variable roll each other
/// back; where too many of them run at once, a rollback sets off more than one other and the run doesn't end: so it begins
/// with few. It grows by a quarter where a step took as few deliveries as it ever took, or a sixteenth more; it is halved
/// where a step took half as many again. A step that costs the same each time is no sign that nothing is rolled back, so
/// who asks keeps a bound however many these are.
#[derive(Clone, Copy, Debug)]
pub struct Ahead {
    agents: usize,
    // The fewest deliveries that a step ever took in an epoch, in parts; none were made before the first.
    cheapest: Option<u64>,
    // The bound of the last epoch, where its quota cut it off: the steps that it let through come to their end first.
    unfinished: Option<Line>,
}

impl Ahead {
    /// Before the first epoch.
    pub fn new() -> Ahead {
        Ahead {
            agents: FEWEST,
            cheapest: None,
            unfinished: None,
        }
    }

    /// The bound of the last epoch, where its quota cut it off: the next one has it, too.
    pub fn unfinished(&self) -> Option<Line> {
        self.unfinished
    }

    /// How many agents: the bound of another epoch stands just above the moments of so many that act next.
    pub fn agents(&self) -> usize {
        self.agents
    }

    // More agents, or fewer.
    fn weigh(&mut self, cost: u64, cheapest: u64) {
        let best = cheapest as u128;
        let now = cost as u128;
        if now * 2 > best * 3 {
            self.agents = (self.agents / 2).max(FEWEST);
        } else if now * 16 <= best * 17 {
            self.agents = self.agents.saturating_add(self.agents / 4).min(MOST);
        }
    }

    /// An epoch within that bound made so many deliveries, of at most so many.
    pub fn went(&mut self, bound: Option<Line>, made: u64, quota: u64) {
        self.unfinished = if made < quota { None } else { bound };
    }

    /// An epoch made so many deliveries, and its Commit handed out so many steps. Threads learn of it, since they want long
    /// epochs; on one thread few agents at once are the fastest.
    pub fn learn(&mut self, made: u64, steps: u64) {
        if steps == 0 {
            self.agents = (self.agents / 2).max(FEWEST);
            return;
        }
        let cost = made.saturating_mul(PARTS) / steps;
        let cheapest = match self.cheapest {
            Some(best) => best.min(cost),
            None => cost,
        };
        self.cheapest = Some(cheapest);
        self.weigh(cost, cheapest);
    }
}
