// Mark 80, the types of the parents' tasks. Mostly the outline lists its records as the tasks are
// listed, so that the task of each parent is at the parent's own place, which is tried first. Where
// some is not, through an order of the tasks: by ID and then by type, so that one lookup tells
// whether some task has both.
#![tactic(auto, unfolding(crate::specs::Typed::type_breaks_lookup, rule_outline::specs::Outline::is_typed, rule_outline::specs::Outline::outline_at, rule_cells::specs::Cells::text_of))]

ghost use Rattle.std.specs.Prelude.{◌≡◌, true, false, ℕ};
ghost use Rattle.rule_cells.specs.Cells.{is_word, first_that};
ghost use Rattle.rule_cells.specs.Seen.{seen, cells_seen};
ghost use Rattle.rule_outline.specs.Outline.{held_in, outline_at, some_of, is_typed, parent_shown, parent_type_breaks, parent_type_rule};
ghost use Rattle.ordered_outline.specs.Typed.{type_breaks_lookup};

use key_lookup::{Index, Lookup, key_of};
use key_order::key_order;
use rule_cells::Table;
use rule_outline::{Outline, parent_shown, parent_type_rule};

// What the rule is asked of: the outline, which of its fields have the level and the task, its records'
// parents; the tasks, which of their fields have the TaskID and the type, and the word for the type.
#[derive(Clone, Copy)]
struct TypeRule<'a> {
    outline: Table<'a>,
    level: usize,
    task: usize,
    parents: &'a [u32],
    tasks: Table<'a>,
    id: usize,
    type_field: usize,
    word: &'a [u8],
}

impl TypeRule<'_> {
    // The parent to be shown of record r.
    fn parent_of(&self, r: usize) -> usize
        ensures { result ≡ parent_shown (cells_seen self.now.outline) self.now.level (held_in self.now.parents.now) r }
    {
        parent_shown(&self.outline, self.level, self.parents, r)
    }

    // Whether the task at the same place as record p has its TaskID and the type that a word names; then
    // some task has.
    fn is_typed_at(&self, p: usize) -> bool
        ensures { result ≡ true → some_of (is_typed (cells_seen self.now.outline) p self.now.task (cells_seen self.now.tasks) self.now.id self.now.type_field self.now.word.now) self.now.tasks.records ≡ true }
    {
        if self.tasks.records <= p {
            return false;
        }
        self.outline.same_in(p, self.task, &self.tasks, p, self.id)
            && self.tasks.is_word(p, self.type_field, self.word)
    }

    // Whether record r has no parent that counts, or the task at the parent's place is right; then it
    // keeps mark 80.
    fn keeps_in_step(&self, r: usize) -> bool
        ensures { result ≡ true → parent_type_breaks (cells_seen self.now.outline) self.now.level self.now.task (held_in self.now.parents.now) (seen self.now.tasks) self.now.id self.now.type_field self.now.word.now r ≡ false }
    {
        let p = self.parent_of(r);
        p == 0 || self.is_typed_at(p - 1)
    }

    // Whether every record keeps mark 80 by the task at its parent's place; then none breaks it.
    fn is_in_step(&self) -> bool
        ensures { result ≡ true → parent_type_rule (seen self.now.outline) self.now.level self.now.task (held_in self.now.parents.now) (seen self.now.tasks) self.now.id self.now.type_field self.now.word.now ≡ outline_at (cells_seen self.now.outline) self.now.level (held_in self.now.parents.now) 0 }
    {
        for r in 0..self.outline.records {
            if !self.keeps_in_step(r) {
                return false;
            }
        }
        true
    }

    // Whether record r breaks mark 80, the task of its parent looked up.
    fn breaks_type(&self, tasks: &Index, r: usize) -> bool
        ensures { result ≡ type_breaks_lookup (cells_seen self.now.outline) self.now.level self.now.task (held_in self.now.parents.now) (cells_seen tasks.now.table) tasks.now.lookup tasks.now.sums.now tasks.now.order.now r }
    {
        let p = self.parent_of(r);
        p != 0 && !tasks.is_found(self.outline.text, self.outline.start_of(p - 1, self.task))
    }

    // The first record that breaks mark 80, and its parent.
    fn first_breaking(&self, tasks: &Index) -> Outline
        ensures { result ≡ outline_at (cells_seen self.now.outline) self.now.level (held_in self.now.parents.now) (first_that (type_breaks_lookup (cells_seen self.now.outline) self.now.level self.now.task (held_in self.now.parents.now) (cells_seen tasks.now.table) tasks.now.lookup tasks.now.sums.now tasks.now.order.now) self.now.outline.records) }
    {
        for r in 0..self.outline.records {
            if self.breaks_type(tasks, r) {
                return Outline {
                    record: r + 1,
                    parent: self.parent_of(r),
                };
            }
        }
        Outline {
            record: 0,
            parent: 0,
        }
    }
}

// The first record of a table whose field is a fixed word, counted from 1; 0 for none. The word stands
// there as a string of the table, which the other records' are compared with.
// No plainer as an Option: `first_that`, by which it is told, counts from 1 and has 0 for none.
fn first_with(table: &Table, field: usize, word: &[u8]) -> usize
    ensures { result ≡ first_that (λ (q : ℕ). is_word (cells_seen table.now) q field word.now) table.now.records }
{
    for q in 0..table.records {
        if table.is_word(q, field, word) {
            return q + 1;
        }
    }
    0
}

// Mark 80, first by the tasks at the parents' places and then through an order of the tasks in the
// lent lists. Where these are not as long as there are tasks, each parent's task is searched among all
// of them; and so it is where no task has the type, since then the first record that counts breaks the
// rule.
pub fn parent_type_rule_in(
    outline: &Table,
    level: usize,
    task: usize,
    parents: &[u32],
    tasks: &Table,
    id: usize,
    type_field: usize,
    word: &[u8],
    sums: &mut [u32],
    order: &mut [u32],
    scratch: &mut [u32],
) -> Outline
    ensures { result ≡ parent_type_rule (seen outline.now) level task (held_in parents.now) (seen tasks.now) id type_field word.now }
{
    let rule = TypeRule {
        outline: *outline,
        level,
        task,
        parents,
        tasks: *tasks,
        id,
        type_field,
        word,
    };
    if rule.is_in_step() {
        return Outline {
            record: 0,
            parent: 0,
        };
    }
    if order.len() == tasks.records {
        let typed = first_with(tasks, type_field, word);
        if typed != 0 {
            let lookup = Lookup {
                m: id,
                k: type_field,
                kind: 1,
                also: tasks.start_of(typed - 1, type_field),
            };
            if key_order(tasks, key_of(lookup), sums, order, scratch) {
                let index = Index {
                    table: *tasks,
                    lookup,
                    sums,
                    order,
                };
                return rule.first_breaking(&index);
            }
        }
    }
    parent_type_rule(outline, level, task, parents, tasks, id, type_field, word)
}
