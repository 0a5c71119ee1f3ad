// The account of a node: what its requests cost in each of two modes, and when it moves to the other.
#![tactic(auto)]

ghost use Rattle.std.specs.Prelude.{◌≡◌, ◌-◌};
ghost use Rattle.account.specs.Tariff as tariffs;
ghost use Rattle.account.specs.Range.{Ranged, within_range, costs_in_range, in_range};
ghost use Rattle.account.specs.Serve.{score_of, switched_of, stayed_of};
ghost use Rattle.account.specs.ServeLaws.{Accounted};

// Where a node lives: as entries on log pages, or whole on a page of its own (document 01: disk mode).
#[derive(Clone, Copy, Debug, PartialEq, Eq)]
pub enum Mode {
    Log,
    Disk,
}

// What a command asks of a node.
#[derive(Clone, Copy, Debug, PartialEq, Eq)]
pub enum Request {
    Read,
    Edit,
    Rewrite,
}

// What requests cost in one mode, and what it costs to switch into it.
#[derive(Clone, Copy, Debug, PartialEq, Eq)]
pub struct Costs {
    pub read: u32,
    pub edit: u32,
    pub rewrite: u32,
    pub enter: u32,
}

// Document 01's tariff: the costs of both modes.
#[derive(Clone, Copy, Debug, PartialEq, Eq)]
pub struct Tariff {
    pub log: Costs,
    pub disk: Costs,
}

// A node's account: its mode, and how far the other mode would have been cheaper.
#[derive(Clone, Copy, Debug, PartialEq, Eq)]
pub struct Account {
    pub mode: Mode,
    pub score: u32,
}

// A request that was served: the account handed back, and what was charged.
#[derive(Clone, Copy, Debug, PartialEq, Eq)]
pub struct Served {
    pub account: Account,
    pub charge: u64,
}

// The mode that a node is not in.
pub fn other(mode: Mode) -> Mode
    ensures { result ≡ tariffs.other mode }
{
    match mode {
        Mode::Log => Mode::Disk,
        Mode::Disk => Mode::Log,
    }
}

// The tariff of eight numbers in the order of document 01 and of field 13.
pub fn tariff_of(
    log_read: u32,
    log_edit: u32,
    log_rewrite: u32,
    disk_read: u32,
    disk_edit: u32,
    disk_rewrite: u32,
    to_disk: u32,
    to_log: u32,
) -> Tariff
    ensures { result
        ≡ tariffs.tariff_of log_read log_edit log_rewrite disk_read disk_edit disk_rewrite to_disk to_log }
{
    Tariff {
        log: Costs {
            read: log_read,
            edit: log_edit,
            rewrite: log_rewrite,
            enter: to_log,
        },
        disk: Costs {
            read: disk_read,
            edit: disk_edit,
            rewrite: disk_rewrite,
            enter: to_disk,
        },
    }
}

// No number of a tariff is more than a million.
const MOST_COST: u32 = 1000000;

// Whether a tariff number is at least the least one allowed and at most a million.
#[tactic(auto, unfolding(crate::specs::Range::within_range))]
fn within(least: u32, number: u32) -> bool
    ensures { result ≡ within_range least number }
{
    least <= number && number <= MOST_COST
}

impl Costs {
    // What a request costs by these costs.
    pub fn cost(self, request: Request) -> u32
        ensures { result ≡ tariffs.cost_of self request }
    {
        match request {
            Request::Read => self.read,
            Request::Edit => self.edit,
            Request::Rewrite => self.rewrite,
        }
    }

    // Whether each of these numbers is in range.
    #[tactic(auto, unfolding(crate::specs::Range::costs_in_range))]
    pub fn in_range(self) -> bool
        ensures { result ≡ costs_in_range self }
    {
        within(0, self.read)
            && within(0, self.edit)
            && within(0, self.rewrite)
            && within(1, self.enter)
    }
}

impl Tariff {
    // The costs of a mode.
    pub fn costs(self, mode: Mode) -> Costs
        ensures { result ≡ tariffs.costs self mode }
    {
        match mode {
            Mode::Log => self.log,
            Mode::Disk => self.disk,
        }
    }

    // Document 01's limit T: both switches together.
    pub fn limit(self) -> u64
        ensures { result ≡ tariffs.limit self }
    {
        u64::from(self.disk.enter) + u64::from(self.log.enter)
    }

    // Whether each number of the tariff is in range (document 01, question 10).
    #[tactic(auto, unfolding(crate::specs::Range::in_range))]
    pub fn in_range(self) -> bool
        ensures { result ≡ in_range self }
    {
        self.log.in_range() && self.disk.in_range()
    }
}

impl Account {
    // The score that a request leads to.
    pub fn scored(self, tariff: Tariff, request: Request) -> u64
        ensures { result ≡ score_of tariff self request }
    {
        let here = tariff.costs(self.mode).cost(request);
        let there = tariff.costs(other(self.mode)).cost(request);
        (u64::from(self.score) + u64::from(here)).saturating_sub(u64::from(there))
    }

    // The request served after a switch: the switch and the other mode's cost are charged, the score is 0.
    pub fn switched(self, tariff: Tariff, request: Request) -> Served
        ensures { result ≡ switched_of tariff self request }
    {
        let mode = other(self.mode);
        let costs = tariff.costs(mode);
        Served {
            account: Account { mode, score: 0 },
            charge: u64::from(costs.enter) + u64::from(costs.cost(request)),
        }
    }

    // The request served where the node is: its cost here is charged, the score is the one it led to.
    pub fn stayed(self, tariff: Tariff, request: Request, score: u32) -> Served
        ensures { result ≡ stayed_of tariff self request score }
    {
        Served {
            account: Account { score, ..self },
            charge: u64::from(tariff.costs(self.mode).cost(request)),
        }
    }

    // A request served: the account and the charge after it.
    pub fn serve(self, tariff: Tariff, request: Request) -> Served
        requires { Ranged tariff }
        ensures { Accounted tariff self request result }
    {
        let score = self.scored(tariff, request);
        if tariff.limit() <= score {
            self.switched(tariff, request)
        } else {
            self.stayed(tariff, request, score as u32)
        }
    }
}
