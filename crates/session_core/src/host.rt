ghost use Rattle.std.specs.Prelude.{◌≡◌, ◌≤◌, [], ℕ, IfOk, IfSome, List, length};
ghost use Rattle.std.specs.List.{IsDistinct};
ghost use Rattle.reply_text.specs.declared.limits.TheConstants.{MAX_VERSIONS};
ghost use Rattle.quotient_coords.specs.Quotient.{Ground};
ghost use Rattle.script_text.specs.Numbered.{NumberedLine};
ghost use Rattle.session_core.specs.Demands.{Gathers, GathersFor, demand, is_pair, line_demand};
ghost use Rattle.session_core.specs.Hosts.{EntersLine};
ghost use Rattle.session_core.specs.Replies.{Finishes, FinishesLine, IsVersionAt};
ghost use Rattle.session_core.specs.SoloRuns.{Answers};
ghost use Rattle.split_state.specs.Versions.{IsVersion};

use crate::column_table::ColumnTable;
use crate::finishing::finish_over;
use crate::outcome::Finish;
use crate::prepared::Prepared;
use crate::preparing::prepare;
use cusps_boundary::Cusps;
use field_table::{OutOfMemory, Residues};
use op_polynomials::SplitEntry;
use quotient_coords::Space;
use reply_text::{Reply, ReplyLine};
use script_text::CommandLine;
use split_state::Splitting;
use std::alloc::Global;
use std::marker::Model;

/// The host of one thread: it answers the commands of all sessions one after another over one space. It keeps the history
/// of accepted splits with the splitting that it makes of the space, the Hecke columns that it computes, and the cusps once
/// they are asked for. Contracts see the ground (the level and the characteristic), the number of sessions, the history, of
/// which the splitting is the one version, and the pairs of the columns.
#[derive(Drop)]
pub struct Host {
    alloc: Global,
    space: Space,
    sessions: u32,
    history: Vec<SplitEntry>,
    splitting: Splitting,
    cusps: Option<Cusps>,
    columns: ColumnTable,
}

impl Model for Host {
    ghost use Rattle.std.specs.Prelude.{◌≡◌, ◌≤◌, IfSome, length};
    ghost use Rattle.session_core.specs.Hosts.{HostState};
    ghost use Rattle.reply_text.specs.declared.limits.TheConstants.{MAX_VERSIONS};
    ghost use Rattle.split_state.specs.Versions.{IsVersion};

    ghost Value = { HostState };

    ghost view = { λ h. record { ground = h.space; sessions = h.sessions; history = h.history.items; pairs = h.columns.pairs } };

    ghost invariant = { λ h. (h.columns.ground ≡ h.space) × (length h.history.items ≤ MAX_VERSIONS)
        × IsVersion h.space h.history.items h.splitting × IfSome h.cusps (λ c. c ≡ h.space.level) };
}

impl Host {
    /// A host for so many sessions that has answered nothing: its history is empty, and its splitting the whole space.
    pub fn new(alloc: Global, space: Space, sessions: u32) -> Result<Host, OutOfMemory>
        ensures ground { IfOk result (λ h. h.ground ≡ space) }
        ensures sessions { IfOk result (λ h. h.sessions ≡ sessions) }
        ensures history { IfOk result (λ h. h.history ≡ []) }
        ensures none { IfOk result (λ h. h.pairs ≡ []) }
    {
        let columns = ColumnTable::new(alloc, &space);
        let splitting = Splitting::whole(alloc, space.field(), space.dim())?;
        Ok(Host {
            alloc,
            space,
            sessions,
            history: Vec::new(alloc),
            splitting,
            cusps: None,
            columns,
        })
    }

    /// The reply line of a command line, which is command `number` of a session from 1 to the number of sessions: its
    /// reply at the version that is the length of the history, or want of memory. An accepted split is entered at the end of
    /// the history; any other reply leaves history and splitting as they are. The columns that the command demands are
    /// computed where they are not there, and stay.
    pub fn step(&mut self, session: u32, number: u32, line: &CommandLine) -> ReplyLine
        requires session { (1 ≤ session) × (session ≤ self.old.sessions) }
        ensures answers { Answers self.old.ground session self.old.history (number, line.now) result
            self.new.history }
        ensures ground { self.new.ground ≡ self.old.ground }
        ensures sessions { self.new.sessions ≡ self.old.sessions }
        ensures few { length self.new.history ≤ MAX_VERSIONS }
        ensures columns { Gathers
            (line_demand self.old.ground (length self.old.history) line.now.text) result.reply
            self.old.pairs self.new.pairs }
    {
        let version = entry_count(&self.history);
        let finish = line_finish(
            self.alloc,
            &self.space,
            &self.splitting,
            version,
            &mut self.cusps,
            &mut self.columns,
            line,
        );
        let reply = enter(
            &mut self.history,
            &mut self.splitting,
            session,
            number,
            version,
            finish,
        );
        ReplyLine {
            number,
            version,
            reply,
        }
    }

    /// The accepted splits, in order.
    pub fn history(&self) -> &[SplitEntry]
        ensures history { result.now ≡ self.now.history }
        ensures few { length result.now ≤ MAX_VERSIONS }
    {
        &self.history
    }

    /// How many columns were computed.
    pub fn columns(&self) -> u64
        ensures count { result ≡ length self.now.pairs }
        ensures distinct { IsDistinct is_pair self.now.pairs }
    {
        self.columns.count()
    }
}

// How many entries a history has.
fn entry_count(history: &[SplitEntry]) -> u32
    requires { length history.now ≤ MAX_VERSIONS }
    ensures { result ≡ length history.now }
{
    history.len() as u32
}

// The reply to a line that came to this, at the version of the history. An accepted split is entered at the end of the
// history, and the next splitting takes the place of the one before.
fn enter(
    history: &mut Vec<SplitEntry>,
    splitting: &mut Splitting,
    session: u32,
    number: u32,
    version: u32,
    finish: Finish,
) -> Reply
    requires version { version ≡ length history.old.items }
    requires few { length history.old.items ≤ MAX_VERSIONS }
    ensures enters { (g : Ground) (line : NumberedLine) → IsVersion g history.old.items splitting.old →
        FinishesLine g version splitting.old line.text finish →
        EntersLine g session number line version history.old.items result history.new.items splitting.new }
    ensures columns { (pairs old new : List (ℕ × ℕ)) → GathersFor pairs finish old new →
        Gathers pairs result old new }
{
    match finish {
        Finish::Reply(reply) => reply,
        Finish::Split {
            op,
            poly,
            next,
            dims,
        } => {
            let entry = SplitEntry {
                session,
                command: number,
                op,
                poly,
            };
            match history.push(entry) {
                Ok(()) => {
                    *splitting = next;
                    Reply::Version {
                        number: version + 1,
                        dims,
                    }
                }
                Err(_) => Reply::Memory,
            }
        }
    }
}

// What a command line comes to at a version. The columns that it demands are in the table afterwards.
fn line_finish(
    alloc: Global,
    space: &Space,
    splitting: &Splitting,
    version: u32,
    cusps: &mut Option<Cusps>,
    columns: &mut ColumnTable,
    line: &CommandLine,
) -> Finish
    requires version { IsVersionAt space.now version splitting.now }
    requires ground { columns.old.ground ≡ space.now }
    requires cusps { IfSome cusps.old (λ c. c ≡ space.now.level) }
    ensures finishes { FinishesLine space.now version splitting.now line.now.text result }
    ensures ground { columns.new.ground ≡ space.now }
    ensures cusps { IfSome cusps.new (λ c. c ≡ space.now.level) }
    ensures columns { GathersFor (line_demand space.now version line.now.text) result columns.old.pairs columns.new.pairs }
{
    match prepare(alloc, space, line, splitting, version) {
        Ok(prepared) => prepared_finish(alloc, space, splitting, cusps, columns, &prepared),
        Err(reply) => Finish::Reply(reply),
    }
}

// What a prepared command comes to.
fn prepared_finish(
    alloc: Global,
    space: &Space,
    splitting: &Splitting,
    cusps: &mut Option<Cusps>,
    columns: &mut ColumnTable,
    prepared: &Prepared,
) -> Finish
    requires version { IsVersionAt space.now prepared.now.version splitting.now }
    requires parts { prepared.now.parts ≡ length splitting.now.parts }
    requires cusps { IfSome cusps.old (λ c. c ≡ space.now.level) }
    requires columns { columns.old.ground ≡ space.now }
    requires ground { prepared.now.ground ≡ space.now }
    ensures finishes { Finishes space.now prepared.now.version splitting.now prepared.now.command result }
    ensures ground { columns.new.ground ≡ space.now }
    ensures cusps { IfSome cusps.new (λ c. c ≡ space.now.level) }
    ensures columns { GathersFor (demand space.now prepared.now.command) result columns.old.pairs columns.new.pairs }
{
    if columns.gather(alloc, space, prepared.demand()).is_err() {
        return Finish::Reply(Reply::Memory);
    }
    let mut source = columns.source(prepared.demand());
    finish_over(alloc, space, cusps, prepared, splitting, &mut source)
}
