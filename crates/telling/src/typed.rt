//! Typed documents. Each operation and fragment has its line.

use crate::containers::Enclosed;
use crate::{Tell, Told};
use apollo_document::FieldSet;
use apollo_executable::{
    ExecutableDocument, Field, Fragment, FragmentSpread, InlineFragment, Operation, OperationMap,
    Selection, SelectionSet,
};

/// The type that is selected from, and the selections.
impl Tell for SelectionSet {
    #[cycle(tell_selection)]
    fn tell(&self, text: &mut String) -> Told {
        tell!(text; self.ty, "{ ", self.selections, "} ")
    }
}

impl Tell for FragmentSpread {
    fn tell(&self, text: &mut String) -> Told {
        tell!(text; "... ", self.fragment_name, self.directives)
    }
}

impl Tell for Field {
    #[cycle(tell_selection)]
    fn tell(&self, text: &mut String) -> Told {
        tell!(text; self.alias, self.name, Enclosed(&self.arguments), self.directives)?;
        tell!(text; "is ", self.definition, "-> ", self.selection_set)
    }
}

impl Tell for InlineFragment {
    #[cycle(tell_selection)]
    fn tell(&self, text: &mut String) -> Told {
        tell!(text; "...on ", self.type_condition, self.directives, "-> ", self.selection_set)
    }
}

impl Tell for Selection {
    #[cycle(tell_selection)]
    fn tell(&self, text: &mut String) -> Told {
        match self {
            Selection::Field(node) => node.tell(text),
            Selection::FragmentSpread(node) => node.tell(text),
            Selection::InlineFragment(node) => node.tell(text),
        }
    }
}

impl Tell for Operation {
    fn tell(&self, text: &mut String) -> Told {
        tell!(text; self.operation_type.name(), " ", self.name, Enclosed(&self.variables))?;
        tell!(text; self.directives, "-> ", self.selection_set, "\n")
    }
}

impl Tell for Fragment {
    fn tell(&self, text: &mut String) -> Told {
        tell!(text; "fragment ", self.name, self.directives, "-> ", self.selection_set, "\n")
    }
}

impl Tell for OperationMap {
    fn tell(&self, text: &mut String) -> Told {
        tell!(text; self.anonymous, self.named)
    }
}

impl Tell for ExecutableDocument {
    fn tell(&self, text: &mut String) -> Told {
        tell!(text; self.sources, self.operations, self.fragments)
    }
}

impl Tell for FieldSet {
    fn tell(&self, text: &mut String) -> Told {
        tell!(text; self.sources, self.selection_set, "\n")
    }
}
