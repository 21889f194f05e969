//! Components, a line for each, with where it comes from.

use crate::containers::At;
use crate::{Tell, Told};
use apollo_component::component::{Component, ComponentName};
use apollo_component::directive_list::DirectiveList;
use apollo_component::extension::{ComponentOrigin, ExtensionId};

/// The number of an extension, and where it stands.
impl Tell for ExtensionId {
    fn tell(&self, text: &mut String) -> Told {
        let number = self.number();
        write!(text, "extension {number} of ")?;
        At(self.location()).tell(text)
    }
}

impl Tell for ComponentOrigin {
    fn tell(&self, text: &mut String) -> Told {
        match self {
            ComponentOrigin::Definition => text.push_str("definition "),
            ComponentOrigin::Extension(id) => id.tell(text),
        }
    }
}

impl Tell for ComponentName {
    fn tell(&self, text: &mut String) -> Told {
        tell!(text; self.origin, self.name, "\n")
    }
}

impl<T: Tell> Tell for Component<T> {
    fn tell(&self, text: &mut String) -> Told {
        tell!(text; self.origin, self.node, "\n")
    }
}

impl Tell for DirectiveList {
    fn tell(&self, text: &mut String) -> Told {
        self.as_slice().tell(text)
    }
}
