//! Reads arguments from the left.

ghost use Rattle.std.specs.Prelude.{◌≡◌, ◌+◌, ◌||◌, Option, IfOk, OnOk};
ghost use Rattle.options.specs.Opening.{cache_named as cache_of, is_declared as declared_of};
ghost use Rattle.options.specs.Stepwise as words;
ghost use Rattle.options_line.specs.Reading.{Gives};
ghost use Rattle.options_line.specs.Argument.{argument_of};

use crate::unrecognized::Unrecognized;
use ac_tree::option_variable;
use deftable::{Bytes, SubstList, Vars};
use options_line::argument::{Argument, Choice, Switch, Target, read_argument};
use options_line::fault::OptionFault;
use std::alloc::{AllocError, Global};

/// The result of the arguments that have been read.
#[derive(Drop)]
pub(crate) struct ReadArguments {
    pub(crate) vars: Vars,
    pub(crate) cache_name: Option<Bytes>,
    pub(crate) quiet: bool,
    pub(crate) no_create: bool,
    pub(crate) help: bool,
    pub(crate) version: bool,
    pub(crate) unrecognized: Unrecognized,
    /// The option that needs the next argument as its value.
    pub(crate) awaited: Option<Target>,
}

/// Returns the cache file of this name, or `None` if the name is empty or `/dev/null`.
#[tactic(auto, unfolding(crate::specs::Opening::cache_named))]
fn cache_named(alloc: Global, name: &[u8]) -> Result<Option<Bytes>, AllocError>
    ensures { IfOk result (λ cache. cache ≡ cache_of name.now) }
{
    if name == b"".as_slice() || name == b"/dev/null".as_slice() {
        return Ok(None);
    }
    Ok(Some(Bytes::from_slice(alloc, name)?))
}

/// Returns whether the source declares the variable of an option, or the variable is that of
/// `--enable-option-checking`.
#[tactic(auto, unfolding(crate::specs::Opening::is_declared))]
fn is_declared(features: &SubstList, packages: &SubstList, variable: &[u8]) -> bool
    ensures { result ≡ declared_of features.now packages.now variable.now }
{
    features.has(variable)
        || packages.has(variable)
        || variable == b"enable_option_checking".as_slice()
}

impl ReadArguments {
    fn set_value(&mut self, alloc: Global, target: Target, value: &[u8]) -> Result<(), AllocError>
        ensures { OnOk result (self.new ≡ words.with_value target value.now self.old) }
    {
        match target {
            Target::InstallDirectory(directory) => self.vars.set(directory.variable(), value),
            Target::Srcdir => Ok(()),
            Target::CacheFile => {
                self.cache_name = cache_named(alloc, value)?;
                Ok(())
            }
        }
    }

    fn turn(&mut self, alloc: Global, switch: Switch) -> Result<(), AllocError>
        ensures { OnOk result (self.new ≡ words.with_switch switch self.old) }
    {
        match switch {
            Switch::ConfigCache => {
                self.cache_name = Some(Bytes::from_slice(alloc, b"config.cache")?);
            }
            Switch::Quiet => self.quiet = true,
            Switch::NoCreate => self.no_create = true,
            Switch::Help => self.help = true,
            Switch::Version => self.version = true,
            Switch::Ignored => {}
        }
        Ok(())
    }

    /// Sets the variable of a feature or a package, and records its option if the source doesn't
    /// declare the variable.
    #[tactic(auto, unfolding(crate::specs::Stepwise::with_choice))]
    fn choose(
        &mut self,
        alloc: Global,
        features: &SubstList,
        packages: &SubstList,
        i: u64,
        choice: Choice<'_>,
    ) -> Result<(), AllocError>
        ensures { OnOk result (
            self.new
            ≡ words.with_choice features.now packages.now i choice.entry.kind
            choice.entry.name.now choice.entry.value.now choice.entry.option.now self.old) }
    {
        let variable = option_variable(alloc, choice.kind, choice.name)?;
        self.vars.set(variable.as_slice(), choice.value)?;
        if !is_declared(features, packages, variable.as_slice()) {
            self.unrecognized.push(i, choice.option)?;
        }
        Ok(())
    }

    /// Adds the reading of an argument that isn't the value of the option before it.
    fn read_said(
        &mut self,
        alloc: Global,
        features: &SubstList,
        packages: &SubstList,
        i: u64,
        said: Argument<'_>,
    ) -> Result<(), OptionFault>
        ensures { Gives (λ _. self.new) result
            (words.with_said features.now packages.now i (argument_of said.entry) self.old) }
    {
        match said {
            Argument::Flag(switch) => self.turn(alloc, switch)?,
            Argument::OptionValue(target, value) => self.set_value(alloc, target, value)?,
            Argument::OptionName(target) => self.awaited = Some(target),
            Argument::FeatureValue(choice) => self.choose(alloc, features, packages, i, choice)?,
            Argument::BadFeatureName => return Err(OptionFault::BadFeature(i)),
            Argument::VariableValue(name, value) => self.vars.set(name, value)?,
            Argument::BadVariableName => return Err(OptionFault::BadVariable(i)),
            Argument::Unrecognized => return Err(OptionFault::Unknown(i)),
        }
        Ok(())
    }

    /// Reads argument `i`.
    #[tactic(auto, unfolding(crate::specs::Stepwise::with_argument))]
    fn read(
        &mut self,
        alloc: Global,
        features: &SubstList,
        packages: &SubstList,
        i: u64,
        argument: &Bytes,
    ) -> Result<(), OptionFault>
        ensures { Gives (λ _. self.new) result
            (words.with_argument features.now packages.now i argument.now self.old) }
    {
        let Some(target) = self.awaited else {
            return self.read_said(
                alloc,
                features,
                packages,
                i,
                read_argument(argument.as_slice()),
            );
        };
        self.awaited = None;
        self.set_value(alloc, target, argument.as_slice())?;
        Ok(())
    }

    /// Checks that no option still needs a value after argument `i`, the last one.
    #[tactic(auto, unfolding(crate::specs::Stepwise::at_end))]
    fn end(self, i: u64) -> Result<ReadArguments, OptionFault>
        ensures { Gives (λ r. r) result (words.at_end i self) }
    {
        match self.awaited {
            Some(_) => Err(OptionFault::MissingValue(i)),
            None => Ok(self),
        }
    }

    /// Reads arguments, which are numbered from 1.
    pub(crate) fn read_all(
        mut self,
        alloc: Global,
        features: &SubstList,
        packages: &SubstList,
        args: &[Bytes],
    ) -> Result<ReadArguments, OptionFault>
        ensures { Gives (λ r. r) result
            (words.with_arguments features.now packages.now 0 self args.now) }
    {
        for (i, argument) in args.iter().enumerate() {
            self.read(alloc, features, packages, i as u64 + 1, argument)?;
        }
        self.end(args.len() as u64)
    }
}
