//! The last words of lines, with the line's end.

ghost use Rattle.std.specs.Prelude.{◌-◌, ◌^◌};
ghost use Rattle.sky_model.specs.Kinds.{Name, Dotted, Number, OptText, Raw};
ghost use Rattle.sky_script.specs.Reading.{ReadsLast};

use crate::cause::LineCause;
use crate::words::Words;
use sky_val::Text;
use std::alloc::Global;

impl<'a> Words<'a> {
    /// A name.
    pub(crate) fn last_name(&mut self, alloc: Global) -> Result<Text, LineCause>
        ensures { ReadsLast Name result self.old }
    {
        let name = self.name(alloc)?;
        self.end()?;
        Ok(name)
    }

    /// A name of one part or two.
    pub(crate) fn last_dotted(&mut self, alloc: Global) -> Result<Text, LineCause>
        ensures { ReadsLast Dotted result self.old }
    {
        let name = self.dotted(alloc)?;
        self.end()?;
        Ok(name)
    }

    /// An id.
    pub(crate) fn last_id(&mut self) -> Result<u64, LineCause>
        ensures { ReadsLast (Number (2 ^ 64 - 1)) result self.old }
    {
        let id = self.number(u64::MAX)?;
        self.end()?;
        Ok(id)
    }

    /// A word, bare or in quotes.
    pub(crate) fn last_raw(&mut self, alloc: Global) -> Result<Text, LineCause>
        ensures { ReadsLast Raw result self.old }
    {
        let text = self.raw(alloc)?;
        self.end()?;
        Ok(text)
    }

    /// A text or null.
    pub(crate) fn last_opt_text(&mut self, alloc: Global) -> Result<Option<Text>, LineCause>
        ensures { ReadsLast OptText result self.old }
    {
        let text = self.opt_text(alloc)?;
        self.end()?;
        Ok(text)
    }
}
