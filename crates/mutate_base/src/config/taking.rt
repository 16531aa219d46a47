//! The module, taken back out of a configuration.

ghost use Rattle.std.specs.Prelude.{◌≡◌, is_some, IsTrue, Some};
ghost use Rattle.mutate_base.specs.Config.{info_of};

use crate::config::Config;

impl<M: Drop, R: Drop> Config<M, R> {
    /// The module; the generator is let go. Condition: set up.
    pub fn into_info(self) -> M
        requires { IsTrue (is_some self.setup) }
        ensures { info_of self ≡ Some result }
    {
        match self.setup {
            Some(setup) => setup.info,
            None => unreachable!(),
        }
    }
}
