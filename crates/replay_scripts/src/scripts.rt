// Executor scripts: docs/FORMATS.md, kind 9.
use exchange::case::{Case, Words};
use exchange::file::least;
use exchange::line::Line;
use exchange::{results, stacks, states};
use executor::{ExecCbResult, Execution, Handed, Phase, Refusal};
use places::SectionAddress;
use streams::room;

// A script under way: the image, the case's words that are still to be read, the buffers that the operations change,
// what is under way and how many states wait.
#[derive(Drop)]
struct Script<'a> {
    im: &'a [u32],
    data: &'a [u8],
    words: Words<'a>,
    map: &'a mut [u32],
    stack: &'a mut [u32],
    run: Execution,
    count: usize,
}

// The buffers are as large as docs/FORMATS.md says of every file.
pub(crate) fn play(case: Case, line: &mut Line) {
    let mut map: [u32; 8300] = room(0);
    // A stack of 64 slots.
    let mut stack: [u32; 21186] = room(0);
    let mut words = case.words;
    let slots = least(stacks::words_of(words.word()), stack.len());
    let m = least(words.word() as usize, map.len());
    words.fill_words(&mut map[..m]);
    let operations = words.word();
    let mut script = Script {
        im: case.image,
        data: case.data,
        words,
        map: &mut map[..m],
        stack: &mut stack[..slots],
        run: Execution::idle(),
        count: 0,
    };
    for _ in 0..operations {
        script.operation(line);
    }
    script.last(line);
}

fn wish(kind: u32, to: SectionAddress) -> ExecCbResult {
    match kind {
        0 => ExecCbResult::Continue,
        1 => ExecCbResult::Jump(to),
        2 => ExecCbResult::EndBlock,
        _ => ExecCbResult::End,
    }
}

impl Script<'_> {
    fn operation(&mut self, line: &mut Line) {
        match self.words.word() {
            1 => self.push(line),
            2 => self.next(line),
            3 => self.reply(line),
            4 => self.visited(line),
            _ => self.handed_over(line),
        }
    }

    fn push(&mut self, line: &mut Line) {
        let sorted = self.words.word() == 1;
        let place = self.words.place();
        let state = self.words.state();
        match executor::push(
            self.im, self.data, self.stack, self.count, place, state, sorted,
        ) {
            Ok(count) => {
                self.count = count;
                line.word(0);
            }
            Err(why) => line.word(u32::from(why)),
        }
    }

    fn next(&mut self, line: &mut Line) {
        if let Ok(h) = self.ask(self.run, line) {
            self.run = h.run;
            self.count = h.count;
        }
    }

    // `next` with a running place of the case's own: refused, so that nothing changes.
    fn handed_over(&mut self, line: &mut Line) {
        let phase = if self.words.word() == 1 {
            Phase::Waiting
        } else {
            Phase::Running
        };
        let place = self.words.place();
        let run = Execution {
            phase,
            at: place,
            block_start: place,
            vm: self.run.vm,
        };
        let _ = self.ask(run, line);
    }

    // What `next` answers over an execution, printed and handed on.
    fn ask(&mut self, run: Execution, line: &mut Line) -> Result<Handed, Refusal> {
        let count = self.count;
        let map = &mut *self.map;
        let stack = &mut *self.stack;
        let answer = executor::next(self.im, self.data, map, stack, count, run);
        match answer {
            Ok(h) => print_handed(h, line),
            Err(why) => line.word(u32::from(why)),
        }
        answer
    }

    fn replied(&self, run: Execution, how: ExecCbResult) -> Result<Execution, Refusal> {
        executor::reply(
            self.im, self.data, self.map, self.stack, self.count, run, how,
        )
    }

    // A reply over the state that the caller wants; refused, what was under way stays.
    fn reply(&mut self, line: &mut Line) {
        let kind = self.words.word();
        let how = wish(kind, self.words.place());
        let mut wanted = self.run;
        if self.words.word() == 1 {
            wanted.vm = self.words.state();
        }
        match self.replied(wanted, how) {
            Ok(run) => {
                self.run = run;
                line.word(0);
            }
            Err(why) => line.word(u32::from(why)),
        }
    }

    fn is_visited(&self, p: SectionAddress) -> Result<bool, Refusal> {
        executor::visited(self.im, self.data, self.map, p)
    }

    fn visited(&mut self, line: &mut Line) {
        let place = self.words.place();
        match self.is_visited(place) {
            Ok(seen) => {
                line.word(0);
                line.flag(seen);
            }
            Err(why) => line.word(u32::from(why)),
        }
    }

    // What the stack holds, the map, and what is under way.
    fn last(&self, line: &mut Line) {
        stacks::held(self.stack, self.count, line);
        line.many(self.map);
        match self.run.phase {
            Phase::Idle => line.word(0),
            Phase::Running => print_run(1, self.run, line),
            Phase::Waiting => print_run(2, self.run, line),
        }
    }
}

fn print_handed(h: Handed, line: &mut Line) {
    line.word(0);
    match h.step {
        None => line.word(0),
        Some(stepped) => {
            line.word(1);
            line.place(h.run.at);
            results::found(line, stepped, h.run.vm);
        }
    }
}

fn print_run(how: u32, run: Execution, line: &mut Line) {
    line.word(how);
    line.place(run.at);
    states::state(line, run.vm);
}
