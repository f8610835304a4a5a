//! Functions: their heads, and where their bodies end.

ghost use Rattle.std.specs.Prelude.{◌≡◌, [], ◌∷◌, ◌++◌, IfOk};
ghost use Rattle.host_nodes.specs.Building as spec;
ghost use Rattle.host_nodes.specs.declared.state.Item.TheVariants as opened;
ghost use Rattle.host_nodes.specs.declared.state.Owner.TheVariants as owners;

use crate::builder::{Builder, lost};
use crate::form::{Declared, Declares, Function};
use crate::state::{At, Item, Owner, Scope};
use embed_base::{PlainList, SharedString};
use host_lexer::{Mark, TokenKind};
use std::alloc::AllocError;

impl Builder {
    fn name_function_in(
        &mut self,
        scope: Scope,
        owner: Owner,
        from: u32,
        name: &str,
        place: u32,
    ) -> Result<(), AllocError>
        ensures { IfOk result (λ _. self.new ≡ spec.function_named_in (opened.Scope scope owner ∷ self.old.stack) self.old from name.now place) }
    {
        let declared = self.declared_as(Declares::Function, name, place)?;
        let name = declared.name.clone()?;
        self.push_declared(scope, owner, declared)?;
        let declared = PlainList::new(self.alloc());
        self.stack.push(Item::Head {
            name,
            place: from,
            declared,
        })?;
        self.at = At::FunctionNamed;
        Ok(())
    }

    fn name_function(&mut self, from: u32, name: &str, place: u32) -> Result<(), AllocError>
        ensures { IfOk result (λ _. self.new ≡ spec.function_named_in self.old.stack self.old from name.now place) }
    {
        let Some(item) = self.stack.pop() else {
            return Ok(());
        };
        match item {
            Item::Scope { scope, owner } => {
                self.name_function_in(scope, owner, from, name, place)
            }
            other => lost(other),
        }
    }

    pub(crate) fn function_begun(
        &mut self,
        from: u32,
        place: u32,
        kind: &TokenKind,
    ) -> Result<(), AllocError>
        ensures { IfOk result (λ _. self.new ≡ spec.function_begun from self.old place kind.now) }
    {
        match kind {
            TokenKind::Name(name) => self.name_function(from, name.as_str(), place),
            _ => Ok(()),
        }
    }

    pub(crate) fn function_named(&mut self, kind: &TokenKind) -> Result<(), AllocError>
        ensures { IfOk result (λ _. self.new ≡ spec.function_named self.old kind.now) }
    {
        match kind {
            TokenKind::Mark(Mark::OpenParen) => self.move_to(At::Parameter),
            _ => Ok(()),
        }
    }

    fn parameter_in(
        &mut self,
        name: SharedString,
        from: u32,
        declared: PlainList<Declared>,
        parameter: &str,
        place: u32,
    ) -> Result<(), AllocError>
        ensures { IfOk result (λ _. self.new ≡ spec.parameter_in (opened.Head name from declared ∷ self.old.stack) self.old parameter.now place) }
    {
        let mut declared = declared;
        declared.push(self.declared_as(Declares::Variable, parameter, place)?)?;
        self.stack.push(Item::Head {
            name,
            place: from,
            declared,
        })?;
        self.at = At::ParameterRead;
        Ok(())
    }

    fn parameter(&mut self, parameter: &str, at_parameter: u32) -> Result<(), AllocError>
        ensures { IfOk result (λ _. self.new ≡ spec.parameter_in self.old.stack self.old parameter.now at_parameter) }
    {
        let Some(item) = self.stack.pop() else {
            return Ok(());
        };
        match item {
            Item::Head {
                name,
                place,
                declared,
            } => self.parameter_in(name, place, declared, parameter, at_parameter),
            other => lost(other),
        }
    }

    pub(crate) fn parametered(&mut self, place: u32, kind: &TokenKind) -> Result<(), AllocError>
        ensures { IfOk result (λ _. self.new ≡ spec.parametered self.old place kind.now) }
    {
        match kind {
            TokenKind::Mark(Mark::CloseParen) => self.move_to(At::ParametersRead),
            TokenKind::Name(name) => self.parameter(name.as_str(), place),
            _ => Ok(()),
        }
    }

    pub(crate) fn parameter_goes_on(&mut self, kind: &TokenKind) -> Result<(), AllocError>
        ensures { IfOk result (λ _. self.new ≡ spec.parameter_goes_on self.old kind.now) }
    {
        match kind {
            TokenKind::Mark(Mark::Comma) => self.move_to(At::Parameter),
            TokenKind::Mark(Mark::CloseParen) => self.move_to(At::ParametersRead),
            _ => Ok(()),
        }
    }

    fn body_begins_in(
        &mut self,
        name: SharedString,
        from: u32,
        declared: PlainList<Declared>,
        place: u32,
    ) -> Result<(), AllocError>
        ensures { IfOk result (λ _. self.new ≡ spec.body_begins_in (opened.Head name from declared ∷ self.old.stack) self.old place) }
    {
        let parameters = declared.len() as u64;
        let owner = Owner::Function {
            name,
            place: from,
            parameters,
        };
        self.scope_begins(place, declared, owner)
    }

    fn open_body(&mut self, at_brace: u32) -> Result<(), AllocError>
        ensures { IfOk result (λ _. self.new ≡ spec.body_begins_in self.old.stack self.old at_brace) }
    {
        let Some(item) = self.stack.pop() else {
            return Ok(());
        };
        match item {
            Item::Head {
                name,
                place,
                declared,
            } => self.body_begins_in(name, place, declared, at_brace),
            other => lost(other),
        }
    }

    pub(crate) fn body_begins(&mut self, place: u32, kind: &TokenKind) -> Result<(), AllocError>
        ensures { IfOk result (λ _. self.new ≡ spec.body_begins self.old place kind.now) }
    {
        match kind {
            TokenKind::Mark(Mark::OpenBrace) => self.open_body(place),
            _ => Ok(()),
        }
    }

    fn add_function(
        &mut self,
        function: Function,
        scope: Scope,
        functions: PlainList<Function>,
    ) -> Result<(), AllocError>
        ensures { IfOk result (λ _. self.new ≡ spec.function_ended function (opened.Scope scope (owners.Script functions) ∷ self.old.stack) self.old self.old.table) }
    {
        let mut functions = functions;
        functions.push(function)?;
        self.stack.push(Item::Scope {
            scope,
            owner: Owner::Script { functions },
        })?;
        self.at = At::Items;
        Ok(())
    }

    fn function_ended_in(
        &mut self,
        function: Function,
        scope: Scope,
        owner: Owner,
    ) -> Result<(), AllocError>
        ensures { IfOk result (λ _. self.new ≡ spec.function_ended function (opened.Scope scope owner ∷ self.old.stack) self.old self.old.table) }
    {
        match owner {
            Owner::Script { functions } => self.add_function(function, scope, functions),
            other => lost(Item::Scope {
                scope,
                owner: other,
            }),
        }
    }

    fn function_ended(&mut self, function: Function) -> Result<(), AllocError>
        ensures { IfOk result (λ _. self.new ≡ spec.function_ended function self.old.stack self.old self.old.table) }
    {
        let Some(item) = self.stack.pop() else {
            return Ok(());
        };
        match item {
            Item::Scope { scope, owner } => self.function_ended_in(function, scope, owner),
            other => lost(other),
        }
    }

    // A function's body is read, which is the last node.
    pub(crate) fn function_read(
        &mut self,
        name: SharedString,
        place: u32,
        parameters: u64,
    ) -> Result<(), AllocError>
        ensures { IfOk result (λ _. self.new ≡ spec.owner_goes_on (owners.Function name place parameters) self.old.stack self.old self.old.table) }
    {
        let body = self.table.last();
        self.function_ended(Function {
            name,
            place,
            parameters,
            body,
        })
    }
}
