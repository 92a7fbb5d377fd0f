//! The machine and its turns.

ghost use Rattle.std.specs.Prelude.{◌≡◌, ◌+◌, ◌<◌, ◌≤◌, ◌^◌, List, [], Some, None, unwrap_or, IfOk, IsOk, IsErr, OnOk, OnErr, IsSome, IfSome, length, map, replicate, slice_get, slice_set};
ghost use Rattle.crew_trait.specs.declared.reply.Reply.TheVariants.{StartRefused};
ghost use Rattle.meaning.specs.Meaning.{meaning};
ghost use Rattle.meaning.specs.Play.{refused_after, whole, with_cut_line};
ghost use Rattle.meaning.specs.State.{opened};
ghost use Rattle.plan.specs.Broken.{refused_all, unset_all};
ghost use Rattle.plan.specs.Inside.{StaysInside, asks_after, asks_of, reach};
ghost use Rattle.plan.specs.Walk.{DoesWhat, act, empty_mind, mind_of, instruction_of};
ghost use Rattle.run_test.specs.Flows.{Continues, Heeds, IsGroup, IsStep, Leads, asks_now, passed};
ghost use Rattle.run_machine.specs.Moves.{arrived, turn_by};
ghost use Rattle.run_machine.specs.Standing.{Fits, Holds, Rests, Turned, outcome_of, run_at, with_phase};
ghost use Rattle.ac_tree.specs.Script.{Script};
ghost use Rattle.run_test.specs.Waits.{Awaits, all_replies, refused_rest, resumed, waits_for};
ghost use Rattle.run_test.specs.declared.wait.Wait.TheVariants as waits;

use crew_jobs::Job;
use crew_trait::{Log, Reply};
use deftable::{Defs, Notes, Vars};
use plan::{Plan, Step};
use run_state::open_tests::{OpenTests, refuse_all, unset_all};
use run_state::pieces::report_cut;
use run_state::{About, Store};
use run_step::{Replied, do_step, hear};
use run_test::{Flow, Wait};
use std::alloc::{AllocError, Global};
use std::marker::Model;
use std::mem;

/// What the caller does next.
#[derive(Clone, Copy)]
pub enum Turn {
    /// Give the replies to the jobs that are asked for.
    Ask,
    /// Nothing: the run is completed.
    Done,
    /// Nothing: the run is stopped, by an error with this exit status, or with status 1 because
    /// there is no compiler.
    Stopped(u8),
    /// Nothing: the run is cut short, because the child of this number, from 1, was refused.
    Cut(u64),
}

/// How a run ended.
#[derive(Clone, Copy, PartialEq, Eq)]
pub enum RunOutcome {
    /// AC_OUTPUT, or the end of the plan, was reached.
    Completed,
    /// An error stopped the run with this exit status, or there was no compiler, which has status
    /// 1.
    Stopped(u8),
    /// The start or the end of the child of this number, from 1, was refused.
    CutShort(u64),
}

/// What a run leaves.
#[derive(Drop)]
pub struct RunEnd {
    pub outcome: RunOutcome,
    /// The variables at the end.
    pub vars: Vars,
    /// The definitions, for the config header.
    pub defs: Defs,
    /// What was printed.
    pub messages: Notes,
    /// The same pieces, and the children that were asked for.
    pub log: Log,
}

/// The state of a machine.
#[derive(Clone, Copy)]
pub enum Phase {
    /// The next step can be done.
    Going,
    /// It waits for replies.
    Asking,
    /// The last step is passed.
    Past,
    /// A step has completed the run.
    Completed,
    /// A step has stopped the run.
    Stopped(u8),
    /// A reply was refused.
    Cut(u64),
    /// Memory ran out.
    Failed,
}

/// A run of a plan. It is between two steps, or within one that waits for replies.
pub struct Machine {
    alloc: Global,
    phase: Phase,
    /// The number of steps that are passed.
    place: usize,
    /// The subject of the choice that began last.
    about: About,
    /// The tests that are not at their end.
    tests: OpenTests,
    store: Store,
    wait: Wait,
    /// The number of jobs that were asked for and have their replies.
    before: u64,
    /// The jobs that are asked for.
    jobs: Vec<Job>,
    /// The reply to each of them, once it is given.
    replies: Vec<Option<Reply>>,
}

impl Drop for Machine {
    fn drop(self) {
        let Machine {
            alloc: _alloc,
            phase: _phase,
            place: _place,
            about: _about,
            tests: _tests,
            store: _store,
            wait: _wait,
            before: _before,
            jobs: _jobs,
            replies: _replies,
        } = self;
    }
}

impl Model for Machine {
    ghost use Rattle.std.specs.Coded.{codes};
    ghost use Rattle.run_machine.specs.Standing.{Standing};
    ghost use Rattle.plan.specs.Walk.{mind_of};

    ghost Value = { Standing };

    ghost view = { λ m. record { phase = m.phase; place = m.place; mind = mind_of m.about m.tests; state = m.store; wait = m.wait; before = m.before; jobs = m.jobs.items; replies = m.replies.items } };
}

impl Machine {
    /// Creates a machine before the first step of the plan, with these variables and no
    /// definitions. It allocates nothing.
    #[tactic(auto, using(crate::proofs::Goes::meant_at_first))]
    pub fn new(alloc: Global, plan: &Plan, vars: Vars) -> Machine
        ensures value { result
            ≡ record {
              phase = Phase.Going;
              place = 0;
              mind = empty_mind;
              state = opened vars;
              wait = waits.Nothing;
              before = 0;
              jobs = [];
              replies = [];
            } }
        // If the plan does what a list of statements does, the run that remains is the meaning of
        // that list. Each turn leaves the run that remained before it, once its replies are taken.
        ensures meaning { (script : Script) → DoesWhat plan.now script
            → run_at plan.now result ≡ whole (meaning script (opened vars)) }
    {
        let _plan = plan;
        Machine {
            alloc,
            phase: Phase::Going,
            place: 0,
            about: About::nothing(alloc),
            tests: OpenTests::new(alloc),
            store: Store::new(alloc, vars),
            wait: Wait::Nothing,
            before: 0,
            jobs: Vec::new(alloc),
            replies: Vec::new(alloc),
        }
    }

    /// Returns the jobs that are asked for; none unless the last turn is [`Turn::Ask`].
    pub fn asked(&self) -> &[Job]
        ensures { result.now ≡ self.now.jobs }
    {
        self.jobs.as_slice()
    }

    /// Gives the reply to the job at index `k` of [`asked`](Machine::asked), which has none yet.
    pub fn give(&mut self, k: usize, reply: Reply)
        requires { slice_get self.old.replies k ≡ Some None }
        ensures { self.new
            ≡ record self.old { replies = slice_set self.old.replies k (Some reply) } }
    {
        put(self.replies.as_mut_slice(), k, reply);
    }

    /// Gives each job that has no reply yet a refused start.
    pub fn cut(&mut self)
        ensures { self.new ≡ record self.old { replies = refused_rest self.old.replies } }
    {
        refuse_rest(self.replies.as_mut_slice());
    }

    /// Advances to the next jobs or to the end of the run, once each job that is asked for has its
    /// reply. A job without one counts as a refused start. At the end of the run, returns the same
    /// turn again.
    ///
    /// # Errors
    ///
    /// Fails if memory runs out, and in every later call.
    pub fn advance(&mut self, plan: &Plan) -> Result<Turn, AllocError>
        requires { Fits plan.now self.old }
        ensures turned { IfOk result (λ turn. Turned plan.now turn self.old self.new) }
        ensures failed { self.old.phase ≡ Phase.Failed → IsErr result }
        ensures err { OnErr result (self.new.phase ≡ Phase.Failed) }
        ensures fits_after_error { OnErr result (Fits plan.now self.new) }
        ensures repeats { IsSome (outcome_of self.old.phase) → self.new ≡ self.old }
        ensures answers { IsSome (outcome_of self.old.phase) → IsOk result }
    {
        match self.phase {
            Phase::Going => self.go_on(plan.steps()),
            Phase::Asking => self.take_replies(plan.steps()),
            Phase::Past | Phase::Completed => Ok(Turn::Done),
            Phase::Stopped(status) => Ok(Turn::Stopped(status)),
            Phase::Cut(number) => Ok(Turn::Cut(number)),
            Phase::Failed => Err(AllocError),
        }
    }

    /// Returns the result of a run that is at its end.
    pub fn end(self) -> RunEnd
        requires { IsSome (outcome_of self.phase) }
        ensures { IfSome (outcome_of self.phase) (λ outcome.
            result
            ≡ record {
              outcome = outcome;
              vars = self.state.vars;
              defs = self.state.defs;
              messages = self.state.messages;
              log = self.state.log;
            }) }
    {
        let Machine {
            alloc: _alloc,
            phase,
            place: _place,
            about: _about,
            tests: _tests,
            store,
            wait: _wait,
            before: _before,
            jobs: _jobs,
            replies: _replies,
        } = self;
        let outcome = outcome_at(phase);
        let (vars, defs, messages, log) = store.into_parts();
        RunEnd {
            outcome,
            vars,
            defs,
            messages,
            log,
        }
    }

    // Returns the number of steps that are passed.
    fn place(&self) -> usize
        ensures { result ≡ self.now.place }
    {
        self.place
    }

    // Does a step. The machine stays before it until `arrive`.
    fn step(&mut self, step: &Step) -> Result<Flow, AllocError>
        ensures unchanged { OnOk result (
            self.new
            ≡ record self.old
            { phase = Phase.Failed; mind = self.new.mind; state = self.new.state }) }
        ensures err { OnErr result (
            self.new
            ≡ record self.old
            { phase = Phase.Failed; mind = self.new.mind; state = self.new.state }) }
        ensures within { IfOk result (λ flow. passed flow ≤ reach (instruction_of step.now)) }
        ensures asks { IfOk result (λ flow. asks_now flow ≤ asks_of (instruction_of step.now)) }
        ensures group { IfOk result IsGroup }
        ensures heeds { IfOk result (λ flow. Heeds flow None) }
        ensures leads { IfOk result (λ flow.
            Continues flow (λ next. act (instruction_of step.now) next self.old.mind self.old.state)
            self.new.mind self.new.state) }
    {
        self.phase = Phase::Failed;
        do_step(
            self.alloc,
            &mut self.store,
            &mut self.about,
            &mut self.tests,
            step,
        )
    }

    // Takes the replies to the jobs that were asked for.
    fn hear(&mut self) -> Result<Flow, AllocError>
        requires awaits { Awaits self.old.wait self.old.jobs }
        requires replies { length self.old.replies ≡ length self.old.jobs }
        requires room { self.old.before + length self.old.jobs < 2 ^ 64 }
        ensures unchanged { OnOk result (
            self.new
            ≡ record self.old {
              phase = Phase.Failed;
              mind = mind_of self.new.mind.scope self.old.mind.open_tests;
              state = self.new.state;
              wait = waits.Nothing;
              before = self.old.before + length self.old.jobs;
              jobs = [];
              replies = [];
            }) }
        ensures err { OnErr result (
            self.new
            ≡ record self.old {
              phase = Phase.Failed;
              mind = mind_of self.new.mind.scope self.old.mind.open_tests;
              state = self.new.state;
              wait = waits.Nothing;
              before = self.old.before + length self.old.jobs;
              jobs = [];
              replies = [];
            }) }
        ensures step { IfOk result (
            IsStep (waits_for self.old.wait) (
            refused_after self.old.before (all_replies self.old.replies))) }
        ensures leads { IfOk result (λ flow.
            Leads flow (λ tests next.
            resumed tests self.old.wait self.old.jobs (all_replies self.old.replies) (next 0)
            self.old.mind.scope self.old.state) self.new.mind.scope self.new.state) }
    {
        self.phase = Phase::Failed;
        let before = self.before;
        self.before = before + self.jobs.len() as u64;
        let jobs = mem::replace(&mut self.jobs, Vec::new(self.alloc));
        let replies = mem::replace(&mut self.replies, Vec::new(self.alloc));
        let wait = mem::replace(&mut self.wait, Wait::Nothing);
        let replied = Replied {
            wait,
            jobs,
            replies,
        };
        hear(
            self.alloc,
            &mut self.store,
            &mut self.about,
            replied,
            before,
        )
    }

    // Keeps these jobs, and room for the reply to each.
    fn hold(&mut self, jobs: Vec<Job>, replies: Vec<Option<Reply>>)
        ensures { self.new ≡ record self.old { jobs = jobs.items; replies = replies.items } }
    {
        self.jobs = jobs;
        self.replies = replies;
    }

    // Waits for the replies.
    fn wait_for(&mut self, wait: Wait)
        ensures { self.new ≡ record self.old { phase = Phase.Asking; wait = wait } }
    {
        self.wait = wait;
        self.phase = Phase::Asking;
    }

    // Asks for jobs, and waits for their replies.
    fn ask(&mut self, jobs: Vec<Job>, wait: Wait) -> Result<Option<Turn>, AllocError>
        ensures turn { IfOk result (λ turn. turn ≡ Some Turn.Ask) }
        ensures moved { OnOk result (
            self.new
            ≡ record self.old {
              phase = Phase.Asking;
              wait = wait;
              jobs = jobs.items;
              replies = replicate (length jobs.items) None;
            }) }
        ensures err { OnErr result (self.new ≡ self.old) }
    {
        let replies = no_replies(self.alloc, jobs.len())?;
        self.hold(jobs, replies);
        self.wait_for(wait);
        Ok(Some(Turn::Ask))
    }

    // Breaks the tests that are not at their end, and ends the run in this phase.
    fn end_in(&mut self, phase: Phase)
        ensures { self.new
            ≡ record self.old {
              phase = phase;
              mind = mind_of self.old.mind.scope [];
              state = unset_all self.old.mind.open_tests self.old.state;
            } }
    {
        unset_all(&mut self.store, &mut self.tests);
        self.phase = phase;
    }

    // Breaks the tests that are not at their end, which are cut short.
    fn refuse_tests(&mut self) -> Result<(), AllocError>
        ensures moved { OnOk result (
            self.new
            ≡ record self.old {
              mind = mind_of self.old.mind.scope [];
              state = refused_all self.old.mind.open_tests self.old.state;
            }) }
        ensures err { OnErr result (
            self.new ≡ record self.old { mind = self.new.mind; state = self.new.state }) }
    {
        refuse_all(self.alloc, &mut self.store, &mut self.tests)
    }

    // Breaks the tests that are not at their end, prints the line of the cut, and ends the run
    // there.
    fn cut_at(&mut self, number: u64) -> Result<Option<Turn>, AllocError>
        ensures turn { IfOk result (λ turn. turn ≡ Some (Turn.Cut number)) }
        ensures moved { OnOk result (
            self.new
            ≡ record self.old {
              phase = Phase.Cut number;
              mind = mind_of self.old.mind.scope [];
              state = with_cut_line (Some number)
                  (refused_all self.old.mind.open_tests self.old.state);
            }) }
        ensures err { OnErr result (
            self.new ≡ record self.old { mind = self.new.mind; state = self.new.state }) }
    {
        self.refuse_tests()?;
        report_cut(self.alloc, &mut self.store, number)?;
        self.phase = Phase::Cut(number);
        Ok(Some(Turn::Cut(number)))
    }

    // Goes to what follows a step. Returns a turn unless the next step can be done.
    fn arrive(&mut self, flow: Flow) -> Result<Option<Turn>, AllocError>
        requires room { self.old.place + (1 + passed flow) < 2 ^ 64 }
        ensures turn { IfOk result (λ turn. turn ≡ turn_by flow) }
        ensures moved { OnOk result (self.new ≡ arrived flow self.old) }
        ensures err { OnErr result (
            self.new ≡ record self.old { mind = self.new.mind; state = self.new.state }) }
    {
        match flow {
            Flow::Pass { more } => {
                self.place += 1 + more;
                Ok(None)
            }
            Flow::Ask { jobs, wait } => self.ask(jobs, wait),
            Flow::Complete => {
                self.end_in(Phase::Completed);
                Ok(Some(Turn::Done))
            }
            Flow::Stop { status } => {
                self.end_in(Phase::Stopped(status));
                Ok(Some(Turn::Stopped(status)))
            }
            Flow::Cut { number } => self.cut_at(number),
        }
    }

    // Notes that the last step is passed.
    fn pass_end(&mut self)
        ensures { self.new ≡ with_phase Phase.Past self.old }
    {
        self.phase = Phase::Past;
    }

    // Does step after step, until jobs are asked for or the run ends.
    fn go_on(&mut self, steps: &[Step]) -> Result<Turn, AllocError>
        requires rests { Rests (map instruction_of steps.now) (with_phase Phase.Going self.old) }
        requires inside { StaysInside (map instruction_of steps.now) }
        ensures turned { IfOk result (λ turn.
            Turned (map instruction_of steps.now) turn (with_phase Phase.Going self.old) self.new) }
        ensures err { OnErr result (self.new.phase ≡ Phase.Failed) }
        ensures fits_after_error { OnErr result (Fits (map instruction_of steps.now) self.new) }
    {
        // the label is for the proof only
        'steps: while self.place() < steps.len() {
            let flow = self.step(&steps[self.place()])?;
            if let Some(turn) = self.arrive(flow)? {
                return Ok(turn);
            }
        }
        self.pass_end();
        Ok(Turn::Done)
    }

    // Takes the replies, and continues.
    fn take_replies(&mut self, steps: &[Step]) -> Result<Turn, AllocError>
        requires asking { self.old.phase ≡ Phase.Asking }
        requires holds { Holds (map instruction_of steps.now) self.old }
        requires inside { StaysInside (map instruction_of steps.now) }
        requires within { asks_after (map instruction_of steps.now) 0 ≤ 2 ^ 36 }
        ensures turned { IfOk result (λ turn.
            Turned (map instruction_of steps.now) turn self.old self.new) }
        ensures err { OnErr result (self.new.phase ≡ Phase.Failed) }
        ensures fits_after_error { OnErr result (Fits (map instruction_of steps.now) self.new) }
    {
        let flow = self.hear()?;
        match self.arrive(flow)? {
            Some(turn) => Ok(turn),
            None => self.go_on(steps),
        }
    }
}

// Returns the outcome of a run that is at its end.
fn outcome_at(phase: Phase) -> RunOutcome
    ensures { IfSome (outcome_of phase) (λ outcome. result ≡ outcome) }
{
    match phase {
        Phase::Stopped(status) => RunOutcome::Stopped(status),
        Phase::Cut(number) => RunOutcome::CutShort(number),
        _ => RunOutcome::Completed,
    }
}

// Returns room for the reply to each of `count` jobs.
fn no_replies(alloc: Global, count: usize) -> Result<Vec<Option<Reply>>, AllocError>
    ensures { IfOk result (λ replies. replies.items ≡ replicate count None) }
{
    let mut replies = Vec::new(alloc);
    for _ in 0..count {
        replies.push(None)?;
    }
    Ok(replies)
}

fn put(replies: &mut [Option<Reply>], k: usize, reply: Reply)
    requires { slice_get replies.old k ≡ Some None }
    ensures { replies.new ≡ slice_set replies.old k (Some reply) }
{
    replies[k] = Some(reply);
}

// If there is no reply, puts a refused start.
fn or_refused(reply: &mut Option<Reply>)
    ensures { reply.new ≡ Some (unwrap_or reply.old StartRefused) }
{
    if reply.is_none() {
        *reply = Some(Reply::StartRefused);
    }
}

fn refuse_rest(replies: &mut [Option<Reply>])
    ensures { replies.new ≡ refused_rest replies.old }
{
    for reply in replies.iter_mut() {
        or_refused(reply);
    }
}
