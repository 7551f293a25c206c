//! Libraries with the printed texts of their definitions, and those of them that are checked.

ghost use Rattle.std.specs.Prelude.{◌≡◌, map, IfOk};
ghost use Rattle.std.specs.Option.{option_copied, option_map};
ghost use Rattle.wc_syntax.specs.Bare.{bare_library};
ghost use Rattle.wc_syntax.specs.Checked.{IsChecked};
ghost use Rattle.wc_syntax.specs.Findings.{definition_named};
ghost use Rattle.wc_syntax.specs.Printing.{printed, printed_definition};

use crate::definition::{Definition, Library};
use crate::lookup::head;
use crate::printing::print_definition;
use std::alloc::{AllocError, Global};
use std::marker::Model;
use std::rc::Rc;
use wc_lexer::{Text, Words};

/// A library with the printed text of each of its definitions, which is made once. Contracts see it as the library, with its offsets.
#[derive(Drop)]
pub struct Printed {
    library: Library,
    texts: Words,
}

impl Model for Printed {
    ghost use Rattle.std.specs.Prelude.{◌≡◌, List, map};
    ghost use Rattle.wc_syntax.specs.declared.definition.Definition.{Definition};
    ghost use Rattle.wc_syntax.specs.Printing.{printed_definition};

    ghost Value = { List Definition };

    ghost use Rattle.std.specs.Coded.{coded_list};
    ghost use Rattle.wc_syntax.specs.contracts.definition.Definition as row;

    ghost coded = { coded_list row.the_row.coded };

    ghost view = { λ p. p.library };

    ghost invariant = { λ p. p.texts ≡ map printed_definition p.library };
}

/// The printed text of each definition.
fn texts_of(alloc: Global, library: &Library) -> Result<Words, AllocError>
    ensures { IfOk result (λ texts. texts ≡ map printed_definition library.now) }
{
    let mut texts = Words::new(alloc);
    for definition in library.as_slice() {
        texts.push(print_definition(alloc, definition)?)?;
    }
    Ok(texts)
}

/// The text of the definition with this name, where the texts are those of the definitions.
#[tactic(auto, using(crate::proofs::Named::text_at, crate::proofs::Named::text_next))]
fn text_named<'a>(library: &[Definition], texts: &'a Words, name: &Text) -> Option<&'a Text>
    requires { texts.now ≡ map printed_definition library.now }
    ensures { option_copied result ≡ option_map printed_definition (definition_named name.now library.now) }
{
    for (at, definition) in library.iter().enumerate() {
        if head(definition).name.text.bytes() == name.bytes() {
            return texts.get(at);
        }
    }
    None
}

impl Printed {
    /// A library whose definitions are printed, each once.
    pub fn of(alloc: Global, library: Library) -> Result<Printed, AllocError>
        ensures { IfOk result (λ printed. printed ≡ library) }
    {
        let texts = texts_of(alloc, &library)?;
        Ok(Printed { library, texts })
    }

    /// The library, with its offsets.
    pub fn library(&self) -> &Library
        ensures { result.now ≡ self.now }
    {
        &self.library
    }

    /// The printed text of the library. It reads back as the same library but for offsets, and comments aren't kept. The texts of the
    /// definitions stand one behind the other, and nothing is printed anew.
    pub fn text(&self, alloc: Global) -> Result<Text, AllocError>
        ensures { IfOk result (λ text. text ≡ printed self.now) }
    {
        let mut out = String::new(alloc);
        for text in self.texts.as_slice() {
            out.push_str(text.as_str())?;
        }
        Text::of_string(out)
    }

    /// The printed text of the definition with this name, if there is one.
    fn text_of(&self, name: &Text) -> Option<&Text>
        ensures { option_copied result ≡ option_map printed_definition (definition_named name.now self.now) }
    {
        text_named(self.library.as_slice(), &self.texts, name)
    }
}

/// A library that meets the rules of a checked library. Contracts see it as its bare form. Its clones share one library,
/// and the printed texts of its definitions.
#[derive(Drop)]
pub struct Checked {
    printed: Rc<Printed>,
}

impl Model for Checked {
    ghost use Rattle.std.specs.Prelude.{List};
    ghost use Rattle.wc_syntax.specs.declared.definition.Definition.{Definition};
    ghost use Rattle.wc_syntax.specs.Bare.{bare_library};
    ghost use Rattle.wc_syntax.specs.Checked.{IsChecked};

    ghost Value = { List Definition };

    ghost use Rattle.std.specs.Coded.{coded_list};
    ghost use Rattle.wc_syntax.specs.contracts.definition.Definition as row;

    ghost coded = { coded_list row.the_row.coded };

    ghost view = { λ c. bare_library c.printed.value };

    ghost invariant = { λ c. IsChecked c.printed.value };
}

impl Checked {
    /// A library that is known to be checked, whose definitions are printed. It takes no memory.
    pub fn of(printed: Rc<Printed>) -> Checked
        requires { IsChecked printed.value }
        ensures { result ≡ bare_library printed.value }
    {
        Checked { printed }
    }

    /// The library, with its offsets.
    pub fn library(&self) -> &Library
        ensures same { bare_library result.now ≡ self.now }
        ensures checked { IsChecked result.now }
    {
        self.printed.library()
    }

    /// The printed text of the library, in which offsets play no part. Nothing is printed anew.
    #[tactic(auto, using(crate::proofs::Bared::printed_bare))]
    pub fn text(&self, alloc: Global) -> Result<Text, AllocError>
        ensures { IfOk result (λ text. text ≡ printed self.now) }
    {
        self.printed.text(alloc)
    }

    /// The printed text of the definition with this name, if there is one. It takes no memory.
    #[tactic(auto, using(crate::proofs::Named::text_bare))]
    pub fn text_of(&self, name: &Text) -> Option<&Text>
        ensures { option_copied result ≡ option_map printed_definition (definition_named name.now self.now) }
    {
        self.printed.text_of(name)
    }
}

impl Clone for Checked {
    ghost use Rattle.std.specs.Prelude.{◌≡◌};

    ghost is_clone = { λ checked copy. copy ≡ checked };

    fn clone(&self) -> Result<Checked, AllocError> {
        Ok(Checked {
            printed: self.printed.clone()?,
        })
    }
}
