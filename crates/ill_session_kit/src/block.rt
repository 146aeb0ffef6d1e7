//! A block is a list of lines that are performed for each of some values. A function returns `None` if its words are
//! wrong, its case does not exist, or memory runs out.

use ill_test_kit::number_in;
use std::alloc::Global;

/// The lines of a block, and the values for the names in braces that the lines contain.
#[derive(Drop)]
pub struct Block {
    /// The allocator of all values.
    alloc: Global,
    /// The names and their values.
    variables: Vec<Variable>,
    /// The lines, with names in braces.
    pub lines: Vec<String>,
}

/// A name, and the values that replace it.
#[derive(Drop)]
struct Variable {
    /// The name in braces.
    mark: String,
    /// The values that replace the name.
    values: Vec<String>,
}

impl Block {
    /// Returns a block without values and lines.
    pub fn new(alloc: Global) -> Block {
        Block {
            alloc,
            variables: Vec::new(alloc),
            lines: Vec::new(alloc),
        }
    }

    /// Adds a line.
    pub fn push(&mut self, line: &str) -> Option<()> {
        let line = String::from_str(self.alloc, line).ok()?;
        self.lines.push(line).ok()
    }

    /// Reads `NAME VALUES`, with commas between the values. A value `0-17` stands for each of these numbers. If NAME is
    /// the last name, its values are added to the earlier ones.
    pub fn add_values(&mut self, words: &str) -> Option<()> {
        let (name, values) = words.split_once(' ')?;
        let mark = format!(in self.alloc; "{{{name}}}").ok()?;
        if self
            .variables
            .last()
            .is_none_or(|last| last.mark.as_str() != mark.as_str())
        {
            let values = Vec::new(self.alloc);
            self.variables.push(Variable { mark, values }).ok()?;
        }
        let variable = self.variables.last_mut()?;
        for value in values.split(", ") {
            variable.add(self.alloc, value)?;
        }
        Some(())
    }

    /// Returns the count of cases. Each value of one name is combined with each value of the others.
    pub fn cases(&self) -> usize {
        let mut cases: usize = 1;
        for variable in &self.variables {
            cases = cases.saturating_mul(variable.values.len());
        }
        cases
    }

    /// Returns the values of the names in the case `case`, with a space before each.
    pub fn values(&self, case: usize) -> Option<String> {
        let mut marks = String::new(self.alloc);
        for variable in &self.variables {
            marks.push_str(" ").ok()?;
            marks.push_str(variable.mark.as_str()).ok()?;
        }
        self.line(marks.as_str(), case)
    }

    /// Returns `line`, in which the values of the case `case` replace the names. The digits of `case` in mixed radix
    /// are the places of the values.
    pub fn line(&self, line: &str, case: usize) -> Option<String> {
        let mut text = String::from_str(self.alloc, line).ok()?;
        let mut rest = case;
        for variable in &self.variables {
            let count = variable.values.len();
            let value = variable.values.get(rest.checked_rem(count)?)?;
            rest = rest.checked_div(count)?;
            text = text
                .replace(self.alloc, variable.mark.as_str(), value.as_str())
                .ok()?;
        }
        Some(text)
    }
}

impl Variable {
    /// Adds a value, or each number of a range.
    fn add(&mut self, alloc: Global, value: &str) -> Option<()> {
        match range(value) {
            Some((first, last)) => self.add_numbers(alloc, first, last),
            None => self.values.push(String::from_str(alloc, value).ok()?).ok(),
        }
    }

    /// Adds the numbers from `first` to `last` as values.
    fn add_numbers(&mut self, alloc: Global, first: u32, last: u32) -> Option<()> {
        for number in first..=last {
            self.values.push(number.to_string(alloc).ok()?).ok()?;
        }
        Some(())
    }
}

/// Returns the first and the last number of a range such as `0-17`.
fn range(value: &str) -> Option<(u32, u32)> {
    let (first, last) = value.split_once('-')?;
    Some((number_in(first)?, number_in(last)?))
}
