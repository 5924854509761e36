// Expressions and values. Recursion goes by brackets and fields alone: `depth` says how many more
// may nest. It begins at 29, a body and 28 values inside it, which is what
// tokens within the limit of nesting need: however long a source is, the stack bears it.

ghost use Rattle.std.specs.Prelude.{◌≡◌, ◌≤◌, [], map, length, true, false, IfOk};
ghost use Rattle.cs_grammar.specs.Spells.{start_at};
ghost use Rattle.cs_grammar.specs.View.{expr_view, field_view, declaration_view, end_view};
ghost use Rattle.cs_syntax.specs.Left.{left, with_front, Reads};
ghost use Rattle.cs_syntax.specs.Reading.{inner, field_with, fields_with, struct_with, struct_tree, rest_with, end_with, elements_with, list_with, list_tree};
ghost use Rattle.cs_syntax.specs.Reading.{declaration_with, declarations_with, wide_struct_with, wide_struct_tree};
ghost use Rattle.cs_syntax.specs.Reading.{paren_with, paren_tree, uncalled_with, operand_with, amps_with, conj_with, branch_with, bars_with, expr_with, most_depth};

use crate::parser::kind::kind_of;
use crate::parser::literal::literal;
use crate::parser::place::Parser;
use cs_grammar::{Declaration, Expr, Field, Kind, ListEnd, Site, SyntaxFault, Wide};

impl Parser<'_, '_> {
    /// A value, which may be a field alone, or an expression, where no such short form is allowed.
    #[cycle(parse)]
    #[tactic(auto, unfolding(crate::specs::Reading::inner))]
    pub(crate) fn inside(&mut self, depth: usize, short: bool) -> Result<Expr, SyntaxFault>
        requires { depth ≤ most_depth }
        ensures { Reads expr_view result self.new (inner depth short (left self.old)) }
    {
        if depth == 0 {
            return Err(self.fault());
        }
        if !short || !self.begins_field() {
            return self.expr(depth - 1);
        }
        let at = self.start();
        let only = self.field(depth - 1)?;
        let mut fields = Vec::new(self.alloc);
        fields.push(only)?;
        Ok(Expr::Struct {
            at,
            fields,
            opened: false,
        })
    }

    /// A field: its label, its mark, a colon and its value.
    #[cycle(parse)]
    #[tactic(auto, unfolding(crate::specs::Reading::field_with))]
    fn field(&mut self, depth: usize) -> Result<Field, SyntaxFault>
        requires { depth ≤ most_depth }
        ensures read { Reads field_view result self.new (field_with (inner depth) (left self.old)) }
        ensures at { IfOk result (λ f. f.site.at ≡ start_at (left self.old)) }
    {
        let at = self.start();
        let (label, quoted, mark) = self.head()?;
        self.expect(Kind::Colon)?;
        let value = self.inside(depth, true)?;
        let site = Site {
            at,
            by: None,
            all: Vec::new(self.alloc),
        };
        Ok(Field {
            label,
            quoted,
            asked: false,
            scoped: None,
            mark,
            value,
            site,
        })
    }

    /// The fields after the first, behind it.
    #[cycle(parse)]
    fn fields(&mut self, depth: usize, fields: &mut Vec<Field>) -> Result<(), SyntaxFault>
        requires { depth ≤ most_depth }
        ensures { Reads (λ _. map field_view fields.new.items) result self.new
            (with_front field_view fields.old.items (fields_with (inner depth) (length (left self.old)) (left self.old))) }
    {
        for _ in self.next..self.tokens.len() {
            if !self.skip_to_field() {
                return Ok(());
            }
            fields.push(self.field(depth)?)?;
        }
        Ok(())
    }

    /// What follows the bracket that opens a struct.
    #[cycle(parse)]
    fn structure(&mut self, depth: usize, at: usize) -> Result<Expr, SyntaxFault>
        requires { depth ≤ most_depth }
        ensures { Reads expr_view result self.new (struct_tree (inner depth) at (left self.old)) }
    {
        let mut fields = Vec::new(self.alloc);
        let opened = self.struct_inside(depth, &mut fields)?;
        Ok(Expr::Struct { at, fields, opened })
    }

    /// Puts the fields of a struct behind none, and answers whether it is opened. They are the caller's, so that no `?` drops them.
    #[cycle(parse)]
    #[tactic(auto, unfolding(crate::specs::Reading::struct_with))]
    fn struct_inside(&mut self, depth: usize, fields: &mut Vec<Field>) -> Result<bool, SyntaxFault>
        requires within { depth ≤ most_depth }
        requires none { fields.old.items ≡ [] }
        ensures { Reads (λ b. (map field_view fields.new.items, b)) result self.new
            (struct_with (inner depth) (left self.old)) }
    {
        if self.skip(Kind::CloseStruct) {
            return Ok(false);
        }
        if self.skip(Kind::Dots) {
            self.close(Kind::CloseStruct)?;
            return Ok(true);
        }
        let first = self.field(depth)?;
        fields.push(first)?;
        self.fields(depth, fields)?;
        self.opening()
    }

    /// A declaration of a literal of the wide profile: a name, a field, an expression that is embedded, or a literal under conditions.
    #[cycle(parse)]
    #[tactic(auto, unfolding(crate::specs::Reading::declaration_with))]
    fn declaration(&mut self, depth: usize) -> Result<Declaration, SyntaxFault>
        requires { depth ≤ most_depth }
        ensures { Reads declaration_view result self.new
            (declaration_with (inner depth) (left self.old)) }
    {
        if self.begins_scoped() {
            return Ok(Declaration::Field(self.scoped(depth)?));
        }
        if self.begins_conditional() {
            return self.conditional(depth);
        }
        if self.begins_field() {
            return Ok(Declaration::Field(self.field(depth)?));
        }
        let at = self.start();
        let value = self.inside(depth, false)?;
        Ok(Declaration::Embedded { at, value })
    }

    /// The declarations after the first, behind it.
    #[cycle(parse)]
    fn declarations(
        &mut self,
        depth: usize,
        declarations: &mut Vec<Declaration>,
    ) -> Result<(), SyntaxFault>
        requires { depth ≤ most_depth }
        ensures { Reads (λ _. map declaration_view declarations.new.items) result self.new
            (with_front declaration_view declarations.old.items (declarations_with (inner depth) (length (left self.old)) (left self.old))) }
    {
        for _ in self.next..self.tokens.len() {
            if !self.skip_to_field() {
                return Ok(());
            }
            declarations.push(self.declaration(depth)?)?;
        }
        Ok(())
    }

    /// What follows the bracket that opens a literal of the wide profile.
    #[cycle(parse)]
    fn wide_structure(&mut self, depth: usize, at: usize) -> Result<Expr, SyntaxFault>
        requires { depth ≤ most_depth }
        ensures { Reads expr_view result self.new
            (wide_struct_tree (inner depth) at (left self.old)) }
    {
        let mut declarations = Vec::new(self.alloc);
        let opened = self.wide_inside(depth, &mut declarations)?;
        Ok(literal(self.alloc, at, declarations, opened)?)
    }

    /// Puts the declarations of such a literal behind none, and answers whether it is opened.
    #[cycle(parse)]
    #[tactic(auto, unfolding(crate::specs::Reading::wide_struct_with))]
    fn wide_inside(
        &mut self,
        depth: usize,
        declarations: &mut Vec<Declaration>,
    ) -> Result<bool, SyntaxFault>
        requires within { depth ≤ most_depth }
        requires none { declarations.old.items ≡ [] }
        ensures { Reads (λ b. (map declaration_view declarations.new.items, b)) result self.new
            (wide_struct_with (inner depth) (left self.old)) }
    {
        if self.skip(Kind::CloseStruct) {
            return Ok(false);
        }
        if self.skip(Kind::Dots) {
            self.close(Kind::CloseStruct)?;
            return Ok(true);
        }
        let first = self.declaration(depth)?;
        declarations.push(first)?;
        self.declarations(depth, declarations)?;
        self.opening()
    }

    /// What follows the `...` of a list.
    #[cycle(parse)]
    #[tactic(auto, unfolding(crate::specs::Reading::rest_with))]
    fn list_rest(&mut self, depth: usize) -> Result<ListEnd, SyntaxFault>
        requires { depth ≤ most_depth }
        ensures { Reads end_view result self.new (rest_with (inner depth) (left self.old)) }
    {
        if self.may_end() {
            self.close(Kind::CloseList)?;
            return Ok(ListEnd::Any);
        }
        let each = self.inside(depth, false)?;
        self.close(Kind::CloseList)?;
        Ok(ListEnd::Each(Box::new(self.alloc, each)?))
    }

    /// What follows the last element of a list.
    #[cycle(parse)]
    #[tactic(auto, unfolding(crate::specs::Reading::end_with))]
    fn list_end(&mut self, depth: usize) -> Result<ListEnd, SyntaxFault>
        requires { depth ≤ most_depth }
        ensures { Reads end_view result self.new (end_with (inner depth) (left self.old)) }
    {
        if !self.skip_to_rest() {
            self.close(Kind::CloseList)?;
            return Ok(ListEnd::Closed);
        }
        self.expect(Kind::Dots)?;
        self.list_rest(depth)
    }

    /// The elements after the first, behind it.
    #[cycle(parse)]
    fn elements(&mut self, depth: usize, elements: &mut Vec<Expr>) -> Result<(), SyntaxFault>
        requires { depth ≤ most_depth }
        ensures { Reads (λ _. map expr_view elements.new.items) result self.new
            (with_front expr_view elements.old.items (elements_with (inner depth) (length (left self.old)) (left self.old))) }
    {
        for _ in self.next..self.tokens.len() {
            if !self.skip_to_element() {
                return Ok(());
            }
            elements.push(self.inside(depth, false)?)?;
        }
        Ok(())
    }

    /// What follows the bracket that opens a list.
    #[cycle(parse)]
    fn list(&mut self, depth: usize) -> Result<Expr, SyntaxFault>
        requires { depth ≤ most_depth }
        ensures { Reads expr_view result self.new (list_tree (inner depth) (left self.old)) }
    {
        let mut front = Vec::new(self.alloc);
        let end = self.list_inside(depth, &mut front)?;
        Ok(Expr::List { front, end })
    }

    /// Puts the elements of a list behind none, and answers how it ends.
    #[cycle(parse)]
    #[tactic(auto, unfolding(crate::specs::Reading::list_with))]
    fn list_inside(&mut self, depth: usize, front: &mut Vec<Expr>) -> Result<ListEnd, SyntaxFault>
        requires within { depth ≤ most_depth }
        requires none { front.old.items ≡ [] }
        ensures { Reads (λ end. (map expr_view front.new.items, end_view end)) result self.new
            (list_with (inner depth) (left self.old)) }
    {
        if self.skip(Kind::CloseList) {
            return Ok(ListEnd::Closed);
        }
        if self.skip(Kind::Dots) {
            return self.list_rest(depth);
        }
        let first = self.inside(depth, false)?;
        front.push(first)?;
        self.elements(depth, front)?;
        self.list_end(depth)
    }

    /// What follows the bracket that opens a parenthesis.
    #[cycle(parse)]
    #[tactic(auto, unfolding(crate::specs::Reading::paren_with))]
    fn paren(&mut self, depth: usize) -> Result<Expr, SyntaxFault>
        requires { depth ≤ most_depth }
        ensures { Reads expr_view result self.new (paren_with (inner depth) (left self.old)) }
    {
        let kept = self.inside(depth, false)?;
        self.close_paren()?;
        Ok(kept)
    }

    /// An operand.
    #[cycle(parse)]
    #[tactic(auto, unfolding(crate::specs::Reading::operand_with))]
    fn operand(&mut self, depth: usize) -> Result<Expr, SyntaxFault>
        requires { depth ≤ most_depth }
        ensures { Reads expr_view result self.new (operand_with (inner depth) (left self.old)) }
    {
        if !self.begins_shut() {
            return self.uncalled(depth);
        }
        let at = self.start();
        self.pass();
        self.pass();
        let value = self.paren(depth)?;
        Ok(Expr::Wide(Wide::Shut {
            at,
            value: Box::new(self.alloc, value)?,
        }))
    }

    /// What follows the bracket of a parenthesis that is kept.
    #[cycle(parse)]
    fn parenthesis(&mut self, depth: usize) -> Result<Expr, SyntaxFault>
        requires { depth ≤ most_depth }
        ensures { Reads expr_view result self.new (paren_tree (inner depth) (left self.old)) }
    {
        let kept = self.paren(depth)?;
        Ok(Expr::Paren(Box::new(self.alloc, kept)?))
    }

    /// An operand without `close`.
    #[cycle(parse)]
    #[tactic(auto, unfolding(crate::specs::Reading::uncalled_with))]
    fn uncalled(&mut self, depth: usize) -> Result<Expr, SyntaxFault>
        requires { depth ≤ most_depth }
        ensures { Reads expr_view result self.new (uncalled_with (inner depth) (left self.old)) }
    {
        let Some(token) = self.peek() else {
            return Err(self.fault());
        };
        match kind_of(&token) {
            Kind::OpenParen | Kind::OpenCall => {
                self.pass();
                self.parenthesis(depth)
            }
            Kind::OpenStruct => {
                self.pass();
                self.structure(depth, token.start)
            }
            Kind::OpenWide => {
                self.pass();
                self.wide_structure(depth, token.start)
            }
            Kind::OpenList => {
                self.pass();
                self.list(depth)
            }
            _ => self.leaf(),
        }
    }

    /// The operands of `&` after the first.
    #[cycle(parse)]
    fn amps(&mut self, depth: usize) -> Result<Vec<Expr>, SyntaxFault>
        requires { depth ≤ most_depth }
        ensures { Reads (λ v. map expr_view v.items) result self.new
            (amps_with (inner depth) (length (left self.old)) (left self.old)) }
    {
        let mut operands = Vec::new(self.alloc);
        for _ in self.next..self.tokens.len() {
            if !self.skip(Kind::Amp) {
                return Ok(operands);
            }
            operands.push(self.operand(depth)?)?;
        }
        Ok(operands)
    }

    /// Operands joined by `&`; one alone makes no `And`.
    #[cycle(parse)]
    #[tactic(auto, unfolding(crate::specs::Reading::conj_with))]
    fn conj(&mut self, depth: usize) -> Result<Expr, SyntaxFault>
        requires { depth ≤ most_depth }
        ensures { Reads expr_view result self.new (conj_with (inner depth) (left self.old)) }
    {
        let first = self.operand(depth)?;
        let mut operands = self.amps(depth)?;
        if operands.is_empty() {
            return Ok(first);
        }
        operands.insert(0, first)?;
        Ok(Expr::And(operands))
    }

    /// An operand of `|`. A `*` before it marks a default (CUE, default values).
    #[cycle(parse)]
    #[tactic(auto, unfolding(crate::specs::Reading::branch_with))]
    fn branch(&mut self, depth: usize) -> Result<Expr, SyntaxFault>
        requires { depth ≤ most_depth }
        ensures { Reads expr_view result self.new (branch_with (inner depth) (left self.old)) }
    {
        let at = self.start();
        if !self.skip(Kind::Star) {
            return self.conj(depth);
        }
        let value = self.conj(depth)?;
        Ok(Expr::Wide(Wide::Marked {
            at,
            value: Box::new(self.alloc, value)?,
        }))
    }

    /// The operands of `|` after the first.
    #[cycle(parse)]
    fn bars(&mut self, depth: usize) -> Result<Vec<Expr>, SyntaxFault>
        requires { depth ≤ most_depth }
        ensures { Reads (λ v. map expr_view v.items) result self.new
            (bars_with (inner depth) (length (left self.old)) (left self.old)) }
    {
        let mut operands = Vec::new(self.alloc);
        for _ in self.next..self.tokens.len() {
            if !self.skip(Kind::Bar) {
                return Ok(operands);
            }
            operands.push(self.branch(depth)?)?;
        }
        Ok(operands)
    }

    /// Operands joined by `|`, which binds less tightly than `&`; one alone makes no `Or`.
    #[cycle(parse)]
    #[tactic(auto, unfolding(crate::specs::Reading::expr_with))]
    fn expr(&mut self, depth: usize) -> Result<Expr, SyntaxFault>
        requires { depth ≤ most_depth }
        ensures { Reads expr_view result self.new (expr_with (inner depth) (left self.old)) }
    {
        let first = self.branch(depth)?;
        let mut operands = self.bars(depth)?;
        if operands.is_empty() {
            return Ok(first);
        }
        operands.insert(0, first)?;
        Ok(Expr::Or(operands))
    }
}
