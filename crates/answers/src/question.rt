// Questions, owners and rows of the graph, over one configuration.
use crate::rows::row;
use access::access::{AccessCheckResult, AccessKind, check_access};
use access::graph::{GraphAnswer, readers_of, transitive_reads};
use cases::{Stored, report_unless};
use messages::Verdict;
use records::error::ModuleError;
use resolution::owner::find_module_for_package;
use resolution::row::Row;
use std::fmt;

// A set, its request and a configuration.
#[derive(Clone, Copy)]
pub struct Asked<'a> {
    pub set: &'a [u8],
    pub request: &'a [u8],
    pub words: &'a [u64],
}

// The answer to a question; none where it is refused.
#[derive(Clone, Copy)]
struct Answer(Option<AccessCheckResult>);

impl Answer {
    // As it is stored: the verdicts in document order, and 4 for a refusal.
    fn number(self) -> usize {
        match self.0 {
            Some(AccessCheckResult::Allowed) => 0,
            Some(AccessCheckResult::NotReadable) => 1,
            Some(AccessCheckResult::NotExported) => 2,
            Some(AccessCheckResult::NotOpened) => 3,
            None => 4,
        }
    }
}

impl fmt::Display for Answer {
    fn fmt<W: fmt::Write>(&self, f: &mut fmt::Formatter<W>) -> fmt::Result {
        match self.0 {
            Some(verdict) => write!(f, "{}", Verdict(verdict)),
            None => f.write_str("refused"),
        }
    }
}

// The position of an owner as it is stored.
fn position_of(owner: Result<Option<usize>, ModuleError>) -> usize {
    match owner {
        Ok(Some(i)) => i,
        Ok(None) => 65535,
        Err(_) => 65534,
    }
}

// An answer of the graph, and the stored row.
fn expect_graph(
    rt: &impl Print,
    answer: Result<GraphAnswer, ModuleError>,
    stored: &mut Stored<'_>,
    what: &str,
) {
    let wanted = row(stored);
    let unnamed = stored.byte();
    match answer {
        Ok(answer) => {
            let words = answer.row;
            let _ = print!(rt; " {}", Row { words }.count());
            report_unless(rt, words == wanted.words, what);
            report_unless(rt, usize::from(answer.unnamed) == unnamed, what);
        }
        Err(_) => report_unless(rt, false, what),
    }
}

impl Asked<'_> {
    fn answer(&self, kind: AccessKind, asker: &[u8], target: &[u8], package: &[u8]) -> Answer {
        let (set, request, words) = (self.set, self.request, self.words);
        Answer(check_access(set, request, words, kind, asker, target, package).ok())
    }

    // A question, and both verdicts.
    fn ask_access(&self, rt: &impl Print, stored: &mut Stored<'_>) {
        let (asker, target, package) = (stored.text(), stored.text(), stored.text());
        let access = self.answer(AccessKind::Access, asker, target, package);
        let reflection = self.answer(AccessKind::Reflection, asker, target, package);
        let _ = print!(rt; " {access}/{reflection}");
        report_unless(rt, access.number() == stored.byte(), "access");
        report_unless(rt, reflection.number() == stored.byte(), "reflection");
    }

    // A package, and its owner.
    fn ask_owner(&self, rt: &impl Print, stored: &mut Stored<'_>) {
        let owner = find_module_for_package(self.set, self.words, stored.text());
        let position = position_of(owner);
        let _ = match owner {
            Ok(None) => print!(rt; " owner none"),
            _ => print!(rt; " owner {position}"),
        };
        report_unless(rt, position == stored.number(), "owner");
    }

    // A name, its readers and what it reaches.
    fn ask_graph(&self, rt: &impl Print, stored: &mut Stored<'_>) {
        let name = stored.text();
        let _ = print!(rt; " readers");
        expect_graph(
            rt,
            readers_of(self.set, self.words, name),
            stored,
            "readers",
        );
        let _ = print!(rt; " reaches");
        expect_graph(
            rt,
            transitive_reads(self.set, self.words, name),
            stored,
            "reaches",
        );
    }

    // All entries, at most 256.
    pub fn ask(&self, rt: &impl Print, entries: &[u8]) {
        let mut stored = Stored { rest: entries };
        for _ in 0..256 {
            if stored.is_empty() {
                break;
            }
            match stored.byte() {
                0 => self.ask_access(rt, &mut stored),
                1 => self.ask_owner(rt, &mut stored),
                _ => self.ask_graph(rt, &mut stored),
            }
        }
    }
}
