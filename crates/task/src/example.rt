// A worked record, which shows that the rules can be kept.
ghost use Rattle.records.specs.Layout.{InFormat};
ghost use Rattle.task.specs.Example.{example};
ghost use Rattle.task.specs.Laws.{Laws};
ghost use Rattle.task.specs.Rules.{Sound};

// The worked record is in format and sound, and has what every sound task has.
pub fn example_is_sound()
    ensures format { InFormat example }
    ensures sound { Sound example }
    ensures laws { Laws example }
{}
