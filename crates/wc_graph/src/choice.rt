//! Which link types a walk may take.

ghost use Rattle.std.specs.Prelude.{◌≡◌, ◌↔◌, IsTrue, Contains};
ghost use Rattle.wc_graph.specs.Walks.{data_types};
ghost use Rattle.wc_graph.specs.Choice.{chosen, Chooses, data_choice};

use crate::LinkType;
use wc_value::List;

/// Link types, in any order and with repeats.
pub type LinkSet = List<LinkType>;

/// Which link types a walk may take.
#[derive(Clone, Copy)]
pub(crate) struct Choice {
    /// Data that goes into calculations.
    pub input_calc: bool,
    /// Data that goes into workflows.
    pub input_work: bool,
    /// Data that calculations make.
    pub create: bool,
    /// Data that workflows give back.
    pub give_back: bool,
    /// Calls of calculations.
    pub call_calc: bool,
    /// Calls of workflows.
    pub call_work: bool,
}

fn lists(types: &LinkSet, link: LinkType) -> bool
    ensures { IsTrue result ↔ Contains types.now link }
{
    types.as_slice().contains(&link)
}

impl Choice {
    /// The types of a set.
    pub(crate) fn of(types: &LinkSet) -> Choice
        ensures { Chooses result types.now }
    {
        Choice {
            input_calc: lists(types, LinkType::InputCalc),
            input_work: lists(types, LinkType::InputWork),
            create: lists(types, LinkType::Create),
            give_back: lists(types, LinkType::Return),
            call_calc: lists(types, LinkType::CallCalc),
            call_work: lists(types, LinkType::CallWork),
        }
    }

    /// The types of data provenance.
    pub(crate) fn data() -> Choice
        ensures is { result ≡ data_choice }
        ensures types { Chooses result data_types }
    {
        Choice {
            input_calc: true,
            input_work: false,
            create: true,
            give_back: false,
            call_calc: false,
            call_work: false,
        }
    }

    /// Whether a walk may take links of this type.
    pub(crate) fn has(self, link: LinkType) -> bool
        ensures { result ≡ chosen self link }
    {
        match link {
            LinkType::InputCalc => self.input_calc,
            LinkType::InputWork => self.input_work,
            LinkType::Create => self.create,
            LinkType::Return => self.give_back,
            LinkType::CallCalc => self.call_calc,
            LinkType::CallWork => self.call_work,
        }
    }
}
