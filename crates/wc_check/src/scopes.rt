//! Where expressions stand, and which names may stand there.

ghost use Rattle.std.specs.Prelude.{◌≡◌, ◌++◌, OnOk};
ghost use Rattle.wc_syntax.specs.Findings.{is_among, inputs_of, unless, unknown, unknown_in_rules, unknown_mention, unknown_names, repeated_lets, repeated_lets_in, let_repeats, scope_after, scope_of, first_scope};
ghost use Rattle.wc_check.specs.Flat.{seen_mention};
ghost use Rattle.wc_check.specs.Least.{least_after, Agree};
ghost use Rattle.wc_check.specs.Scopes.{scope_seen, Alike};
ghost use Rattle.wc_check.specs.Sought.{unknown_outside};

use crate::best::{Best, Fault};
use crate::heads::is_reserved;
use crate::mentions::{Mention, Search, find_in_lines, find_in_pieces, find_in_rule};
use crate::names::Names;
use crate::parts::Parts;
use std::alloc::{AllocError, Global};
use wc_syntax::{Definition, Name, Rule};

/// Where an expression stands.
#[derive(Drop)]
pub struct Scope<'p> {
    /// Whether it stands in a work chain.
    pub in_chain: bool,
    /// Whether it stands in a rule of a job, which knows what the job left.
    pub has_results: bool,
    /// The input ports.
    pub ports: &'p Names,
    /// The names of the lets before it.
    pub lets: Names,
}

impl<'p> Scope<'p> {
    /// Where lines of a job and the outline of a work chain stand.
    fn of(alloc: Global, definition: &Definition, ports: &'p Names) -> Scope<'p>
        requires { Agree ports.now (inputs_of definition.now) }
        ensures { Alike (scope_seen result) (scope_of definition.now) }
    {
        let in_chain = match definition {
            Definition::Chain(_) => true,
            _ => false,
        };
        Scope {
            in_chain,
            has_results: false,
            ports,
            lets: Names::new(alloc),
        }
    }

    /// Where the first rule stands.
    fn first(alloc: Global, definition: &Definition, ports: &'p Names) -> Scope<'p>
        requires { Agree ports.now (inputs_of definition.now) }
        ensures { Alike (scope_seen result) (first_scope definition.now) }
    {
        let has_results = match definition {
            Definition::Job(_) => true,
            _ => false,
        };
        Scope {
            in_chain: false,
            has_results,
            ports,
            lets: Names::new(alloc),
        }
    }

    /// Whether a bare name may name something.
    fn knows(&self, name: &str) -> bool
        ensures { result ≡ is_among name.now (scope_seen self.now).known }
    {
        if self.in_chain {
            return self.lets.has(name);
        }
        self.ports.has(name) || (self.has_results && is_reserved(name)) || self.lets.has(name)
    }

    /// Goes behind a rule.
    fn go_behind(&mut self, alloc: Global, rule: &Rule) -> Result<(), AllocError>
        ensures { OnOk result (Alike (scope_seen self.new) (scope_after rule.now (scope_seen self.old))) }
    {
        if let Rule::Let(_, name, _) = rule {
            self.lets.add(alloc, name.text.as_str())?;
        }
        Ok(())
    }
}

/// Finds a name that may not stand where it stands.
pub fn unknown_mention<'a>(best: &mut Best<'a>, scope: &Scope<'_>, mention: Mention<'a>)
    ensures { best.new ≡ least_after best.old (unknown_mention (scope_seen scope.now) (seen_mention mention.entry)) }
{
    match mention {
        Mention::Bare(name) => unless_known(best, scope.knows(name.text.as_str()), name),
        Mention::Given(name) => {
            let is_port = !scope.in_chain && scope.ports.has(name.text.as_str());
            unless_known(best, is_port, name);
        }
        Mention::Input(at, name) => {
            if scope.in_chain {
                unless_known(best, scope.ports.has(name.text.as_str()), name);
            } else {
                best.offer(Fault::Unknown, "inputs", at);
            }
        }
        Mention::Context(at, _) => best.offer_unless(scope.in_chain, Fault::Unknown, "ctx", at),
        Mention::Label(_) => {}
    }
}

/// Finds a name, unless it is known.
fn unless_known<'a>(best: &mut Best<'a>, is_known: bool, name: &'a Name)
    ensures { best.new ≡ least_after best.old (unless is_known (unknown name.now.text name.now.at)) }
{
    best.offer_unless(is_known, Fault::Unknown, name.text.as_str(), name.at);
}

/// Finds a `let` of a name that is known.
fn let_repeats<'a>(best: &mut Best<'a>, scope: &Scope<'_>, rule: &'a Rule)
    ensures { best.new ≡ least_after best.old (let_repeats (scope_seen scope.now) rule.now) }
{
    match rule {
        Rule::Let(_, name, _) => {
            let text = name.text.as_str();
            best.offer_unless(!scope.knows(text), Fault::Twice, text, name.at);
        }
        Rule::Out(_, _, _) => {}
        Rule::Exit(_) => {}
    }
}

/// Finds each `let` of a known name and each name that may not stand where it stands, where the first rule stands in the scope.
fn find_in_rules<'a>(
    alloc: Global,
    best: &mut Best<'a>,
    scope: &mut Scope<'_>,
    rules: &'a [Rule],
) -> Result<(), AllocError>
    ensures { OnOk result (best.new ≡ least_after (least_after best.old (repeated_lets_in (scope_seen scope.old) rules.now)) (unknown_in_rules (scope_seen scope.old) rules.now)) }
{
    for rule in rules {
        let_repeats(best, scope, rule);
        find_in_rule(best, &Search::Unknown(scope), rule);
        scope.go_behind(alloc, rule)?;
    }
    Ok(())
}

/// Finds each name in the lines of a job and in an outline that may not stand there.
fn find_outside<'a>(alloc: Global, best: &mut Best<'a>, parts: &Parts<'a>)
    ensures { best.new ≡ least_after best.old (unknown_outside parts.now) }
{
    let scope = Scope::of(alloc, parts.definition(), parts.inputs());
    find_in_lines(best, &Search::Unknown(&scope), parts.definition());
    find_in_pieces(best, &Search::Unknown(&scope), parts.pieces());
}

/// A `let` differs from the input ports and the lets before it, and in a job from `retrieved` and `code`; and each name in an
/// expression is one that may stand there.
pub fn unknown_names<'a>(
    alloc: Global,
    best: &mut Best<'a>,
    parts: &Parts<'a>,
) -> Result<(), AllocError>
    ensures { OnOk result (best.new ≡ least_after best.old (repeated_lets parts.now ++ unknown_names parts.now)) }
{
    find_outside(alloc, best, parts);
    let mut scope = Scope::first(alloc, parts.definition(), parts.inputs());
    find_in_rules(alloc, best, &mut scope, parts.rules())
}
