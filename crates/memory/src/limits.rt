ghost use Rattle.std.specs.Prelude.{◌≡◌};
ghost use Rattle.memory.specs.Shapes.{is_process, is_variable, shape_by, Shaped};

use super::shapes::Shape;

impl Shape {
    // The shape of these numbers, or None where one is outside its limits.
    pub fn new(processes: u8, variables: u8, ceiling: u8) -> Option<Shape>
        ensures value { result ≡ shape_by processes variables ceiling }
        ensures words { Shaped processes variables ceiling result }
    {
        // An `if`, since `then` takes a closure, which would not know of the limits that a shape carries.
        if (1..=4).contains(&processes) && (1..=4).contains(&variables) && ceiling <= 24 {
            Some(Shape {
                processes,
                variables,
                ceiling,
            })
        } else {
            None
        }
    }

    // Whether there is such a process.
    pub fn has_process(self, process: u8) -> bool
        ensures { result ≡ is_process self process }
    {
        (1..=self.processes).contains(&process)
    }

    // Whether there is such a variable.
    pub fn has_variable(self, variable: u8) -> bool
        ensures { result ≡ is_variable self variable }
    {
        variable <= self.variables
    }
}
