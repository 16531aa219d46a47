ghost use Rattle.std.specs.Prelude.{◌≡◌, false, is_some, IsSome, IsTrue};
ghost use Rattle.std.specs.Borrow.{sem};
ghost use Rattle.std.specs.Option.Follows.{option_follows_value};

mod taking;

use std::marker::Model;
use wasm_types::ModuleInfo;

/// What a mutation goes by: whether the meaning is preserved, and, once it is set up, the module and the generator
/// that random constants are drawn from.
pub type WasmMutate<'a, R> = Config<ModuleInfo<'a>, R>;

/// A configuration over any type of what is known of a module.
#[derive(Drop)]
pub struct Config<M, R> {
    preserving: bool,
    setup: Option<Setup<M, R>>,
}

impl<M, R> Model for Config<M, R> {
    ghost use Rattle.mutate_base.specs.Config.{Config};

    ghost Value = { Config M R };

    ghost view = { λ c. record { preserving = c.preserving; setup = c.setup } };
}

// The module and the generator, which are there or not together.
#[derive(Drop)]
struct Setup<M, R> {
    info: M,
    generator: R,
}

impl<M, R> Model for Setup<M, R> {
    ghost use Rattle.mutate_base.specs.Config.{Setup};

    ghost Value = { Setup M R };

    ghost view = { λ s. record { info = s.info; generator = s.generator } };
}

impl<M: Drop, R: Drop> Config<M, R> {
    ghost use Rattle.mutate_base.specs.Config.{info_of, generator_of};
    ghost use Rattle.mutate_base.specs.Lending.{LendsGenerator};

    /// A configuration that doesn't preserve the meaning, and isn't set up.
    pub fn new() -> Config<M, R>
        ensures { result ≡ record { preserving = false; setup = None } }
    {
        Config {
            preserving: false,
            setup: None,
        }
    }

    /// Says whether the meaning is to be preserved.
    pub fn preserve_semantics(&mut self, preserving: bool)
        ensures { self.new ≡ record self.old { preserving = preserving } }
    {
        self.preserving = preserving;
    }

    /// Whether the meaning is to be preserved.
    pub fn preserves_semantics(&self) -> bool
        ensures { result ≡ self.now.preserving }
    {
        self.preserving
    }

    /// Takes the module and the generator, in place of those before.
    pub fn set_up(&mut self, info: M, generator: R)
        ensures { self.new ≡ record self.old {
          setup = Some (record { info = info; generator = generator });
        } }
    {
        self.setup = Some(Setup { info, generator });
    }

    /// Whether the module and the generator are there.
    pub fn is_set_up(&self) -> bool
        ensures { result ≡ is_some self.now.setup }
    {
        self.setup.is_some()
    }

    /// The module. Condition: set up.
    pub fn info(&self) -> &M
        requires { IsTrue (is_some self.now.setup) }
        ensures { info_of self.now ≡ Some result.now }
    {
        match &self.setup {
            Some(setup) => &setup.info,
            None => unreachable!(),
        }
    }

    /// The generator, to draw from. Nothing else of the configuration changes. Condition: set up.
    pub fn rng(&mut self) -> &mut R
        requires { IsTrue (is_some self.old.setup) }
        ensures* lends { sem 𝓛 (LendsGenerator M.row R.row self.entry result) }
        ensures value { generator_of self.old ≡ Some result.now }
    {
        &mut content_mut(&mut self.setup).generator
    }
}

// What an `Option` holds, to write to. Condition: it holds something.
fn content_mut<T>(slot: &mut Option<T>) -> &mut T
    requires { IsSome slot.old }
    ensures* lends { sem 𝓛 (option_follows_value T.row slot.entry result) }
    ensures value { slot.old ≡ Some result.now }
{
    match slot {
        Some(content) => content,
        None => unreachable!(),
    }
}
