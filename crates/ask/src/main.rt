// Asks whether a module may see a package of another: resolves the files `set` and `request`, and prints the verdict for access
// and the one for reflection, or the number of the refusal; and on standard error the absent module, where one is. A line that cannot
// be printed is passed over.
#![tactic(auto)]

use access::access::{AccessKind, check_access};
use anyhow::{Context, Result, ensure};
use messages::{Verdict, tell_absent};
use resolution::configuration::WORDS;
use resolution::resolve::resolve;
use std::rt::{Env, Files};

// Whether the module `asker` may see this package of the module `target`.
#[derive(Clone, Copy)]
struct Question<'a> {
    asker: &'a [u8],
    target: &'a [u8],
    package: &'a [u8],
}

impl Question<'_> {
    // Prints both verdicts, with the configuration that the set and the request resolve to.
    fn ask(&self, rt: &impl Print, set: &[u8], request: &[u8], words: &[u64]) {
        for (name, kind) in [
            ("access", AccessKind::Access),
            ("reflection", AccessKind::Reflection),
        ] {
            let (asker, target, package) = (self.asker, self.target, self.package);
            let _ = match check_access(set, request, words, kind, asker, target, package) {
                Ok(v) => println!(rt; "{name} {}", Verdict(v)),
                Err(e) => println!(rt; "refused {}", e.number()),
            };
        }
    }
}

fn run(rt: &(impl Env + Files + Print + Eprint)) -> Result<()> {
    ensure!(
        files::has_arg(rt, 3) && !files::has_arg(rt, 4),
        "usage: ask ASKER TARGET PACKAGE"
    );
    let mut asker = [0u8; 4096];
    let mut target = [0u8; 4096];
    let mut package = [0u8; 4096];
    let question = Question {
        asker: files::arg(rt, 1, &mut asker).context("ask: ASKER")?,
        target: files::arg(rt, 2, &mut target).context("ask: TARGET")?,
        package: files::arg(rt, 3, &mut package).context("ask: PACKAGE")?,
    };
    let mut set = [0u8; 65536];
    let set = files::read(rt, b"set", &mut set).context("ask: cannot read the file set")?;
    let mut request = [0u8; 65536];
    let request = files::read(rt, b"request", &mut request).context(
        "ask: cannot read the file request",
    )?;
    let mut words = [0u64; WORDS];
    let outcome = resolve(set, request, &mut words);
    match outcome {
        Ok(()) => question.ask(rt, set, request, &words),
        Err(e) => {
            let _ = println!(rt; "refused {}", e.number());
        }
    }
    tell_absent(rt, set, request, outcome);
    Ok(())
}

fn main(rt: HostRuntime) {
    if let Err(e) = run(&rt) {
        let _ = eprintln!(rt; "{e:#}");
    }
}
