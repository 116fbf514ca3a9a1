//! Laws of images.

ghost use Rattle.type_definitions.specs.ImageLaws.{ImagesAreOfTheSignature, MapsKeepProfiles};

/// Under maps from one signature to another the image of a term of the one is a term of the other.
pub fn images_are_of_the_signature()
    ensures { ImagesAreOfTheSignature }
{}

/// Under such maps the operations of a term become ones whose sorts are the images of their own.
pub fn maps_keep_profiles()
    ensures { MapsKeepProfiles }
{}
