//! Four callers that add, drop, replace and filter at once, each on a thread of its own. Each reply
//! has to be what the plain evaluator says of the filters that are live at the version it names.
ghost use Rattle.std.specs.Prelude.{◌≡◌, ◌<◌, false, IfOk};
ghost use Rattle.px_text.specs.Nodes.{Root};
ghost use Rattle.px_reader.specs.Spelling as spelling;

use px_hub::{Config, Hub, HubName, Parts, Pass, threads_may_share_a_hub};
use px_meaning::holds;
use px_reader::{Event, Reader, ReaderFault};
use px_text::Ids;
use px_tree::{Tree, build};
use px_xpath::{Filter, parse};
use std::alloc::Global;
use std::marker::Brand;
use std::sync::Wait;
use std::thread::{Threads, join};

/// Four passes over few banks with little room, so that banks are fought for, filled and given
/// away.
const FOUR: Config = Config {
    passes: 4,
    banks: 3,
    node_bits: 6,
    step_bits: 8,
};

/// How many calls each of the four makes.
const CALLS: u32 = 25_000;

/// The most filters of one caller.
const MOST: usize = 4;

const FILTERS: [&[u8]; 12] = [
    b"/a",
    b"/b",
    b"//c",
    b"/a/b",
    b"/a[b]",
    b"//b[c]",
    b"/a[not(b)]",
    b"/a[@k=\"1\"]",
    b"//b[@k>1]",
    b"/a[b and c]",
    b"//c[text()=\"x\"]",
    b"/a//c",
];

const DOCUMENTS: [&[u8]; 8] = [
    b"(a\n)a\n",
    b"(b\n)b\n",
    b"(a\n(b\n)b\n)a\n",
    b"(a\n(c\n-x\n)c\n)a\n",
    b"(a\nAk 1\n(b\nAk 2\n(c\n)c\n)b\n)a\n",
    b"(b\nAk 1\n(c\n-y\n)c\n)b\n",
    b"(a\n(b\n)b\n(c\n-x\n)c\n)a\n",
    b"(d\n(b\n(c\n-x\n)c\n)b\n)d\n",
];

/// From this version on the id has the filter at this place of the list, or is dropped.
#[derive(Clone, Copy, Drop)]
struct Change {
    version: u32,
    id: u32,
    filter: Option<usize>,
}

/// A reply to a document of the list.
#[derive(Drop)]
struct Told {
    version: u32,
    document: usize,
    ids: Ids,
}

/// What a caller did and was told.
#[derive(Drop)]
struct Account {
    changes: Vec<Change>,
    replies: Vec<Told>,
}

/// Numbers at random.
#[derive(Drop)]
struct Draw {
    state: u64,
}

impl Draw {
    // A number below a bound.
    fn below(&mut self, bound: usize) -> usize
        requires { 0 < bound }
        ensures { result < bound }
    {
        self.state = self
            .state
            .wrapping_mul(6_364_136_223_846_793_005)
            .wrapping_add(1_442_695_040_888_963_407);
        (self.state >> 33) as usize % bound
    }
}

/// A caller between two calls.
#[derive(Drop)]
struct Caller {
    draw: Draw,
    own: Vec<u32>,
    account: Account,
}

impl Caller {
    fn new(alloc: Global, seed: u64) -> Caller {
        Caller {
            draw: Draw { state: seed },
            own: Vec::new(alloc),
            account: Account {
                changes: Vec::new(alloc),
                replies: Vec::new(alloc),
            },
        }
    }

    // Writes a change down.
    fn note(&mut self, version: u32, id: u32, filter: Option<usize>) -> Option<()> {
        let change = Change {
            version,
            id,
            filter,
        };
        self.account.changes.push(change).ok()
    }

    // One of the ids that the caller added, taken out or not.
    fn one_of_its_own(&mut self) -> Option<usize> {
        let many = self.own.len();
        if many == 0 {
            return None;
        }
        Some(self.draw.below(many))
    }
}

// Makes a call of a kind that is drawn.
fn act<N: HubName>(
    rt: &impl Wait,
    hub: &Hub<N>,
    pass: &mut Pass<N>,
    caller: &mut Caller,
) -> Option<()> {
    if pass.is_open() {
        return None;
    }
    match caller.draw.below(64) {
        0 if caller.own.len() < MOST => add(rt, hub, pass, caller),
        0 | 1 => remove(rt, hub, pass, caller),
        2 => replace(rt, hub, pass, caller),
        3..=9 => hub.refresh(rt, pass).ok().map(|_| ()),
        _ => filter(hub, pass, caller),
    }
}

fn add<N: HubName>(
    rt: &impl Wait,
    hub: &Hub<N>,
    pass: &mut Pass<N>,
    caller: &mut Caller,
) -> Option<()>
    requires { pass.old.is_open ≡ false }
{
    let number = caller.draw.below(FILTERS.len());
    let id = hub.subscribe(rt, pass, FILTERS[number]).ok()?;
    caller.own.push(id).ok()?;
    caller.note(id, id, Some(number))
}

fn remove<N: HubName>(
    rt: &impl Wait,
    hub: &Hub<N>,
    pass: &mut Pass<N>,
    caller: &mut Caller,
) -> Option<()>
    requires { pass.old.is_open ≡ false }
{
    let Some(place) = caller.one_of_its_own() else {
        return Some(());
    };
    let id = *caller.own.get(place)?;
    let version = hub.unsubscribe(rt, pass, id).ok()?;
    caller.own.retain(|other| *other != id);
    caller.note(version, id, None)
}

fn replace<N: HubName>(
    rt: &impl Wait,
    hub: &Hub<N>,
    pass: &mut Pass<N>,
    caller: &mut Caller,
) -> Option<()>
    requires { pass.old.is_open ≡ false }
{
    let Some(place) = caller.one_of_its_own() else {
        return Some(());
    };
    let id = *caller.own.get(place)?;
    let number = caller.draw.below(FILTERS.len());
    let version = hub.replace(rt, pass, id, FILTERS[number]).ok()?;
    caller.note(version, id, Some(number))
}

fn filter<N: HubName>(hub: &Hub<N>, pass: &mut Pass<N>, caller: &mut Caller) -> Option<()>
    requires { pass.old.is_open ≡ false }
{
    let document = caller.draw.below(DOCUMENTS.len());
    let reply = hub.filter(pass, DOCUMENTS[document]).ok()?;
    let told = Told {
        version: reply.version,
        document,
        ids: reply.ids,
    };
    caller.account.replies.push(told).ok()
}

// All calls of one caller.
fn call_on<N: HubName>(
    rt: &impl Wait,
    alloc: Global,
    hub: &Hub<N>,
    pass: &mut Pass<N>,
    seed: u64,
) -> Option<Account> {
    let mut caller = Caller::new(alloc, seed);
    for _ in 0..CALLS {
        act(rt, hub, pass, &mut caller)?;
    }
    let Caller { account, .. } = caller;
    Some(account)
}

// Two callers side by side.
fn call_both<N: HubName + Send + Sync, R: Threads + Wait + Sync>(
    rt: &R,
    alloc: Global,
    hub: &Hub<N>,
    passes: (&mut Pass<N>, &mut Pass<N>),
    seed: u64,
) -> Option<[Account; 2]> {
    threads_may_share_a_hub::<N>();
    let (one, two) = passes;
    let (first, second) = join(
        rt,
        || call_on(rt, alloc, hub, one, seed),
        || call_on(rt, alloc, hub, two, seed ^ 1),
    );
    Some([first?, second?])
}

// Four callers side by side.
fn call_all<N: HubName + Send + Sync, R: Threads + Wait + Sync>(
    rt: &R,
    alloc: Global,
    parts: Parts,
) -> Option<[[Account; 2]; 2]>
    requires table { N.table ≡ parts.shared }
    requires passes { N.passes ≡ parts.passes }
{
    threads_may_share_a_hub::<N>();
    let (hub, mut passes) = Hub::<N>::create(parts).ok()?;
    let mut one = passes.pop()?;
    let mut two = passes.pop()?;
    let mut three = passes.pop()?;
    let mut four = passes.pop()?;
    let (first, second) = join(
        rt,
        || call_both(rt, alloc, &hub, (&mut one, &mut two), 2),
        || call_both(rt, alloc, &hub, (&mut three, &mut four), 4),
    );
    Some([first?, second?])
}

/// Which filters of the list hold of which documents of the list.
#[derive(Drop)]
struct Meaning {
    rows: Vec<Vec<bool>>,
}

impl Meaning {
    fn of(alloc: Global) -> Option<Meaning> {
        let mut trees = Vec::new(alloc);
        for document in DOCUMENTS {
            trees.push(tree_of(alloc, document)?).ok()?;
        }
        let mut rows = Vec::new(alloc);
        for text in FILTERS {
            let filter = parse(alloc, text).ok()?;
            rows.push(row(alloc, &filter, &trees)?).ok()?;
        }
        Some(Meaning { rows })
    }

    fn holds(&self, filter: usize, document: usize) -> bool {
        match self.rows.get(filter) {
            Some(row) => row.get(document).copied() == Some(true),
            None => false,
        }
    }
}

// The tree of a document.
fn tree_of(alloc: Global, document: &[u8]) -> Option<Tree> {
    let events = events_of(alloc, document).ok()?;
    build(alloc, events.as_slice()).ok()
}

// The events of a document.
fn events_of(alloc: Global, document: &[u8]) -> Result<Vec<Event>, ReaderFault>
    ensures tree { IfOk result (λ events. (root : Root) ×
        (events.items ≡ spelling.events_of root)) }
{
    let mut reader = Reader::new(alloc)?;
    let mut events = Vec::new(alloc);
    reader.feed(document, &mut events)?;
    reader.end(&mut events)?;
    Ok(events)
}

// Whether a filter holds of each of some trees.
fn row(alloc: Global, filter: &Filter, trees: &[Tree]) -> Option<Vec<bool>> {
    let mut row = Vec::new(alloc);
    for tree in trees {
        row.push(holds(filter, tree)).ok()?;
    }
    Some(row)
}

/// The ids that are live, rising, with the places of their filters in the list.
#[derive(Drop)]
struct Live {
    all: Vec<(u32, usize)>,
}

impl Live {
    fn change(&mut self, change: Change) -> Option<()> {
        let Some(filter) = change.filter else {
            self.all.retain(|it| it.0 != change.id);
            return Some(());
        };
        for it in self.all.iter_mut() {
            if it.0 == change.id {
                it.1 = filter;
                return Some(());
            }
        }
        self.all.push((change.id, filter)).ok()
    }

    // Whether these are the ids of the filters that hold.
    fn is_told(&self, meaning: &Meaning, told: &Told) -> bool {
        let right = self
            .all
            .iter()
            .filter(|it| meaning.holds(it.1, told.document));
        right.map(|it| it.0).eq(told.ids.as_slice().iter().copied())
    }
}

// All that four callers did and were told, in the order of the versions, if each version has one
// change.
fn merged(alloc: Global, accounts: [[Account; 2]; 2]) -> Option<Account> {
    let mut all = Account {
        changes: Vec::new(alloc),
        replies: Vec::new(alloc),
    };
    for account in accounts.into_iter().flatten() {
        all.changes.extend(account.changes).ok()?;
        all.replies.extend(account.replies).ok()?;
    }
    all.changes.sort_unstable_by_key(|it| it.version);
    all.replies.sort_unstable_by_key(|it| it.version);
    let versions = all.changes.iter().map(|it| it.version);
    if versions.eq(1..=u32::try_from(all.changes.len()).ok()?) {
        Some(all)
    } else {
        None
    }
}

// How many replies there are, and how many of them are wrong.
fn wrong_replies(alloc: Global, account: &Account) -> Option<(usize, usize)> {
    let meaning = Meaning::of(alloc)?;
    let mut live = Live {
        all: Vec::new(alloc),
    };
    let mut version = 0;
    let mut wrong = 0usize;
    for told in account.replies.iter() {
        for change in account.changes.get(version..told.version as usize)? {
            live.change(*change)?;
        }
        version = told.version as usize;
        if !live.is_told(&meaning, told) {
            wrong = wrong.saturating_add(1);
        }
    }
    Some((account.replies.len(), wrong))
}

// How many replies four callers got, and how many of them are wrong.
fn called<R: Threads + Wait + Sync>(rt: &R, alloc: Global) -> Option<(usize, usize)> {
    let parts = Parts::new(alloc, FOUR).ok()?;
    let accounts = call_all::<Brand, R>(rt, alloc, parts)?;
    wrong_replies(alloc, &merged(alloc, accounts)?)
}

// The changes of all are one history, and each reply is right at the version that it names.
#[test]
fn four_callers_make_a_hundred_thousand_calls(rt: HostRuntime) {
    let Some((replies, wrong)) = called(&rt, rt.alloc()) else {
        panic!(rt; "each call is answered, and each version has one change")
    };
    assert!(rt; replies > 50_000);
    assert_eq!(rt; wrong, 0);
}
