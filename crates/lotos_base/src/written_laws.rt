//! The laws of written terms as plain values.

ghost use Rattle.lotos_base.specs.WrittenLaws.{
  ArgumentsAreSeen,
  HeadsAreSeen,
  WrittenArgumentsComeBack,
  WrittenListsComeBack,
};

/// The arguments of a written term are a list of written terms.
pub fn written_arguments_are_lists()
    ensures there_and_back { WrittenListsComeBack }
    ensures back_and_there { WrittenArgumentsComeBack }
{}

/// The plain value of a written term has what stands at its node, and the plain values of its
/// arguments in their order.
pub fn written_terms_are_seen_by_parts()
    ensures heads { HeadsAreSeen }
    ensures arguments { ArgumentsAreSeen }
{}
