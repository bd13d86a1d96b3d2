//! What is handed over.
ghost use Rattle.std.specs.Prelude.{◌≡◌};
ghost use Rattle.si_intake.specs.Items.{is_last};

use si_text::LineItem;

/// What a source has to tell.
#[derive(Debug, PartialEq, Drop)]
pub enum What {
    /// A line: its number, and its edit or what is wrong with it.
    Line(LineItem),
    /// The source could not be read on. It is the source's last item.
    ReadFault,
    /// Memory was refused at the source. It is the source's last item.
    NoMemory,
    /// The source is at its end. It is the source's last item.
    End,
}

/// What a source has told, with the number of the source.
#[derive(Debug, PartialEq, Drop)]
pub struct Item {
    pub source: usize,
    pub what: What,
}

impl Item {
    /// Whether its source puts no further item.
    pub fn is_last(&self) -> bool
        ensures { result ≡ is_last self.now }
    {
        !matches!(&self.what, What::Line(..))
    }
}
