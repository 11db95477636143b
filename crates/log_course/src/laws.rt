//! What is read of a log is what it has.

ghost use Rattle.log_course.specs.Course.{CoursesAreRead};

/// The groups that are read of a file are just those that its transactions commit, one behind another.
pub fn courses_are_read()
    ensures { CoursesAreRead }
{}
