//! The ways of a login from its open to its end, what it holds on them, and logins by their ids.

ghost use Rattle.std.specs.Prelude.{◌≡◌, ◌<◌, None, Some, OnOk, OnErr, IfErr};
ghost use Rattle.ely_context.specs.ContextTable.{fail};
ghost use Rattle.ely_context.specs.Logins.{moved_at, state_at};

use ely_base::{Bytes, CtxId, Name, NoMemory, Serial, Version, discard};
use ely_context::{Context, Logins, Pin, StateWord};
use ely_cred::{Ready, choose, derive};
use ely_hash::Steps;
use ely_login::{CacheWord, Claim, Evidence};
use ely_pipeline::Place;
use ely_row::{Mech, Params, Row, SharedRow, StoredCred};
use std::alloc::Global;
use std::marker::Brand;
use std::sync::ledger::{Blank, Ledger};
use std::test::Fail;

/// What is there, with what was made beside it. Where that wanted memory, what is there is let go here.
fn beside<A: Drop, B>(there: A, made: Result<B, NoMemory>) -> Result<(A, B), NoMemory> {
    match made {
        Ok(made) => Ok((there, made)),
        Err(NoMemory) => Err(NoMemory),
    }
}

fn name(alloc: Global, text: &[u8]) -> Result<Name, NoMemory> {
    match Name::read(alloc, text) {
        Ok(name) => Ok(name),
        Err(_) => Err(NoMemory),
    }
}

fn row(alloc: Global) -> Result<Row, NoMemory> {
    let row = Row::new(alloc);
    let Ok(cred) = StoredCred::read(alloc, b"clear", b"pencil") else {
        return Err(NoMemory);
    };
    if !row.has_cred_room(1) {
        return Err(NoMemory);
    }
    row.with(1, cred)
}

fn counted_ready<L: Ledger>(blank: Blank, alloc: Global, row: &Row) -> Result<Ready, NoMemory>
    requires name { blank.name ≡ L.name }
    requires parts { blank.parts ≡ L.parts }
    requires some { 0 < blank.parts }
{
    let mut steps = Steps::<L>::of(blank);
    let realm = name(alloc, b"main")?;
    let user = name(alloc, b"user")?;
    match choose(row, Mech::Plain) {
        None => Err(NoMemory),
        Some(_) => derive::<L>(
            alloc,
            &realm,
            &user,
            row,
            Mech::Plain,
            &Params::plain(alloc),
            &mut steps,
        ),
    }
}

fn ready(alloc: Global) -> Result<Ready, NoMemory> {
    let row = row(alloc)?;
    counted_ready::<Brand>(Blank::new(1), alloc, &row)
}

fn place(alloc: Global) -> Result<Place, NoMemory> {
    let (realm, name) = beside(name(alloc, b"main")?, name(alloc, b"user"))?;
    Ok(Place { realm, name })
}

fn shared(alloc: Global) -> Result<SharedRow, NoMemory> {
    let row = row(alloc)?;
    SharedRow::new(alloc, row)
}

fn pin(alloc: Global, version: u64) -> Result<Pin, NoMemory> {
    let placed = beside(place(alloc)?, name(alloc, b"user"))?;
    let ((place, name), row) = beside(placed, shared(alloc))?;
    Ok(Pin {
        version: Version(version),
        place,
        row,
        claim: Claim::Plain {
            authzid: None,
            name,
        },
        found: CacheWord::Dash,
        held: None,
    })
}

fn password(alloc: Global) -> Result<Evidence, NoMemory> {
    Ok(Evidence::Plain {
        password: Bytes::copy_of(alloc, b"pencil")?,
    })
}

fn fresh(alloc: Global, serial: u64) -> Result<Context, NoMemory> {
    let nonce = Bytes::copy_of(alloc, b"abc")?;
    Ok(Context::begin(Serial(serial), Mech::Plain, nonce))
}

/// The state that a refused name1 tells.
fn refused_pin(login: &mut Context, pin: Pin) -> Option<StateWord> {
    match login.name1(pin) {
        Ok(()) => None,
        Err((state, pin)) => {
            discard(pin);
            Some(state)
        }
    }
}

/// The state that a refused check1 tells.
fn refused_evidence(login: &mut Context, evidence: Evidence) -> Option<StateWord> {
    match login.check1(evidence) {
        Ok(()) => None,
        Err((state, evidence)) => {
            discard(evidence);
            Some(state)
        }
    }
}

/// Whether each call of a login's way is accepted, one that is denied among them, and its failing afterwards is not.
fn walked(login: &mut Context, pin: Pin, ready: Ready, password: Evidence) -> [bool; 8] {
    [
        refused_pin(login, pin).is_none(),
        login.name2(ready, None) == Ok(()),
        refused_evidence(login, password).is_none(),
        login.check2(true) == Ok(()),
        login.authorize(false) == Ok(false),
        login.authorize(true) == Ok(true),
        login.succeed() == Ok(()),
        login.fail() == Err(StateWord::Complete),
    ]
}

fn walk(alloc: Global) -> Result<[bool; 8], NoMemory> {
    let shown = beside(password(alloc)?, pin(alloc, 2))?;
    let ((password, pin), ready) = beside(shown, ready(alloc))?;
    let mut login = Context::begin(Serial(1), Mech::Plain, Bytes::of(Vec::new(alloc)));
    let steps = walked(&mut login, pin, ready, password);
    discard(login);
    Ok(steps)
}

/// What comes to a login: name1, name2, check1, a check2 that is proved and one that isn't, an authorize that is granted and
/// one that isn't, succeed, fail.
fn meet(alloc: Global, login: &mut Context, event: u8) -> Result<(), NoMemory> {
    match event {
        0 => {
            let _ = refused_pin(login, pin(alloc, 2)?);
        }
        1 => {
            let _ = login.name2(ready(alloc)?, None);
        }
        2 => {
            let _ = refused_evidence(login, password(alloc)?);
        }
        3 | 4 => {
            let _ = login.check2(event == 3);
        }
        5 | 6 => {
            let _ = login.authorize(event == 5);
        }
        7 => {
            let _ = login.succeed();
        }
        _ => {
            let _ = login.fail();
        }
    }
    Ok(())
}

fn meet_all(alloc: Global, login: &mut Context, events: &[u8]) -> Result<(), NoMemory> {
    for event in events {
        meet(alloc, login, *event)?;
    }
    Ok(())
}

/// The state of a fresh login after these events and then that one.
fn after(alloc: Global, events: &[u8], last: u8) -> Result<StateWord, NoMemory> {
    let mut login = Context::begin(Serial(1), Mech::Plain, Bytes::of(Vec::new(alloc)));
    let met = meet_all(alloc, &mut login, events);
    let done = meet(alloc, &mut login, last);
    let state = login.state();
    discard(login);
    met?;
    done?;
    Ok(state)
}

/// The events that lead to each state, and the letter of the state after each event there.
const TABLE: [(&[u8], &[u8; 9]); 8] = [
    (&[], b"lfffffffx"),
    (&[0], b"lnllllllx"),
    (&[0, 1], b"nncnnnnnx"),
    (&[0, 1, 2], b"cccpxcccx"),
    (&[0, 1, 2, 3], b"pppppappx"),
    (&[0, 1, 2, 3, 5], b"aaaaaaaex"),
    (&[0, 1, 2, 3, 5, 7], b"eeeeeeeee"),
    (&[8], b"xxxxxxxxx"),
];

fn letter(state: StateWord) -> u8 {
    match state {
        StateWord::Absent => b'-',
        StateWord::Fresh => b'f',
        StateWord::Loading => b'l',
        StateWord::Named => b'n',
        StateWord::Checking => b'c',
        StateWord::Proved => b'p',
        StateWord::Authorized => b'a',
        StateWord::Complete => b'e',
        StateWord::Failed => b'x',
    }
}

#[test]
fn each_event_moves_a_login_by_the_table(rt: HostRuntime) -> Result<(), Fail> {
    for (events, row) in TABLE {
        for (last, wanted) in row.iter().enumerate() {
            assert_eq!(rt; letter(after(rt.alloc(), events, last as u8)?), *wanted);
        }
    }
    Ok(())
}

#[test]
fn a_login_walks_to_its_end(rt: HostRuntime) -> Result<(), Fail> {
    assert!(rt; walk(rt.alloc())? == [true; 8]);
    Ok(())
}

/// Fails the login with this id.
fn fail_at(logins: &mut Logins, id: CtxId) -> Result<(), StateWord>
    ensures moved { OnOk result (moved_at logins.old id fail ≡ Some logins.new) }
    ensures refused { OnErr result (moved_at logins.old id fail ≡ None) }
    ensures told { IfErr result (λ state. state ≡ state_at logins.old id) }
    ensures err { OnErr result (logins.new ≡ logins.old) }
{
    match logins.find_mut(id) {
        None => Err(StateWord::Absent),
        Some(login) => login.fail(),
    }
}

/// Opens a login under this id, where none has it.
fn open_at(alloc: Global, logins: &mut Logins, id: u32) -> Result<(), NoMemory> {
    if logins.find(CtxId(id)).is_none() {
        logins.open(CtxId(id), fresh(alloc, 1)?)?;
    }
    Ok(())
}

/// The state of the login with this id.
fn state_now(logins: &Logins, id: u32) -> Option<StateWord> {
    match logins.find(CtxId(id)) {
        None => None,
        Some(login) => Some(login.state()),
    }
}

/// Opens three logins.
fn open_three(alloc: Global, logins: &mut Logins) -> Result<(), NoMemory> {
    for id in [7u32, 3, 4294967295] {
        open_at(alloc, logins, id)?;
    }
    Ok(())
}

/// Three fresh logins.
fn three(alloc: Global) -> Result<Logins, NoMemory> {
    let mut logins = Logins::new(alloc);
    let opened = open_three(alloc, &mut logins);
    let (logins, ()) = beside(logins, opened)?;
    Ok(logins)
}

fn found(alloc: Global) -> Result<[bool; 3], NoMemory> {
    let logins = three(alloc)?;
    Ok([
        logins.len() == 3,
        state_now(&logins, 4294967295) == Some(StateWord::Fresh),
        state_now(&logins, 8) == None,
    ])
}

fn moved_alone(alloc: Global) -> Result<[bool; 4], NoMemory> {
    let mut logins = three(alloc)?;
    Ok([
        fail_at(&mut logins, CtxId(3)) == Ok(()),
        fail_at(&mut logins, CtxId(3)) == Err(StateWord::Failed),
        fail_at(&mut logins, CtxId(8)) == Err(StateWord::Absent),
        state_now(&logins, 7) == Some(StateWord::Fresh),
    ])
}

#[test]
fn logins_are_found_and_moved_by_their_ids(rt: HostRuntime) -> Result<(), Fail> {
    assert!(rt; found(rt.alloc())? == [true; 3]);
    assert!(rt; moved_alone(rt.alloc())? == [true; 4]);
    Ok(())
}

fn crosses<T: Send + Sync>() {}

#[test]
fn logins_may_cross_threads(_rt: HostRuntime) {
    crosses::<Pin>();
    crosses::<Context>();
    crosses::<Logins>();
}
